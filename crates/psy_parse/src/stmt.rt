//! How statements are read.
ghost use Rattle.std.specs.Prelude.{[]};
ghost use Rattle.psy_parse.specs.Reading.{Gives, left, expr_at, test_at, block_in_braces_at, if_at, while_at, send_at, advance_at, return_at, set_at};
ghost use Rattle.psy_parse.specs.Reading.{set_cell_at, stmt_at, block_at};

use crate::cursor::Cursor;
use crate::expr::{LEVELS, expr};
use crate::fault::Failure;
use crate::reader::{after_sign, after_word, name, number, optional_number, sign, stuck, word};
use psy_base::Items;
use psy_tree::{Name, RawExpr, RawStmt, Sign, Word};
use std::alloc::Global;

/// The statements of a block behind these, and its closing brace. `depth` bounds the recursion.
#[cycle(stmt)]
#[tactic(auto, unfolding(crate::specs::Reading::block_at))]
pub fn block<'a>(
    alloc: Global,
    mut depth: usize,
    first: Items<RawStmt>,
    cursor: Cursor<'a>,
) -> Result<(Items<RawStmt>, Cursor<'a>), Failure>
    ensures { Gives (λ x. (x.0, left x.1)) result (block_at depth first (left cursor.entry)) }
{
    let mut stmts = first;
    let mut rest = cursor;
    while depth > 0 {
        depth -= 1;
        if let Some(after) = after_sign(rest, Sign::CloseBrace) {
            return Ok((stmts, after));
        }
        let (next, after) = stmt(alloc, depth, rest)?;
        stmts.push(next)?;
        rest = after;
    }
    Err(stuck(rest))
}

/// A statement, by its first word.
#[cycle(stmt)]
#[tactic(auto, unfolding(crate::specs::Reading::stmt_at))]
fn stmt<'a>(
    alloc: Global,
    depth: usize,
    cursor: Cursor<'a>,
) -> Result<(RawStmt, Cursor<'a>), Failure>
    ensures { Gives (λ x. (x.0, left x.1)) result (stmt_at (expr_at depth 10) (block_at depth []) (left cursor.entry)) }
{
    if let Some((_, rest)) = after_word(cursor, Word::If) {
        return if_stmt(alloc, depth, rest);
    }
    if let Some((token, rest)) = after_word(cursor, Word::While) {
        return while_stmt(alloc, depth, token, rest);
    }
    if let Some((token, rest)) = after_word(cursor, Word::Send) {
        return send(alloc, depth, token, rest);
    }
    if let Some((token, rest)) = after_word(cursor, Word::Advance) {
        return advance(alloc, token, rest);
    }
    if let Some((token, rest)) = after_word(cursor, Word::Return) {
        return return_stmt(alloc, depth, token, rest);
    }
    let (name, rest) = name(alloc, cursor)?;
    if let Some(rest) = after_sign(rest, Sign::OpenSquare) {
        return set_cell(alloc, depth, name, rest);
    }
    set(alloc, depth, name, rest)
}

#[cycle(stmt)]
#[tactic(auto, unfolding(crate::specs::Reading::if_at))]
fn if_stmt<'a>(
    alloc: Global,
    depth: usize,
    cursor: Cursor<'a>,
) -> Result<(RawStmt, Cursor<'a>), Failure>
    ensures { Gives (λ x. (x.0, left x.1)) result (if_at (expr_at depth 10) (block_at depth []) (left cursor.entry)) }
{
    let (test, rest) = test(alloc, depth, cursor)?;
    let (body, rest) = block_in_braces(alloc, depth, rest)?;
    let Some((_, rest)) = after_word(rest, Word::Else) else {
        return Ok((RawStmt::If(test, body, None), rest));
    };
    let (other, rest) = block_in_braces(alloc, depth, rest)?;
    Ok((RawStmt::If(test, body, Some(other)), rest))
}

#[cycle(stmt)]
#[tactic(auto, unfolding(crate::specs::Reading::while_at))]
fn while_stmt<'a>(
    alloc: Global,
    depth: usize,
    token: u32,
    cursor: Cursor<'a>,
) -> Result<(RawStmt, Cursor<'a>), Failure>
    ensures { Gives (λ x. (x.0, left x.1)) result (while_at (expr_at depth 10) (block_at depth []) token (left cursor.entry)) }
{
    let (test, rest) = test(alloc, depth, cursor)?;
    let (max, rest) = optional_number(rest, Word::Max)?;
    let (body, rest) = block_in_braces(alloc, depth, rest)?;
    let stmt = RawStmt::While {
        token,
        test,
        max,
        body,
    };
    Ok((stmt, rest))
}

#[cycle(stmt)]
#[tactic(auto, unfolding(crate::specs::Reading::block_in_braces_at))]
fn block_in_braces<'a>(
    alloc: Global,
    depth: usize,
    cursor: Cursor<'a>,
) -> Result<(Items<RawStmt>, Cursor<'a>), Failure>
    ensures { Gives (λ x. (x.0, left x.1)) result (block_in_braces_at (block_at depth []) (left cursor.entry)) }
{
    let rest = sign(cursor, Sign::OpenBrace)?;
    block(alloc, depth, Items::new(alloc), rest)
}

/// An expression in round brackets.
#[tactic(auto, unfolding(crate::specs::Reading::test_at))]
fn test<'a>(
    alloc: Global,
    depth: usize,
    cursor: Cursor<'a>,
) -> Result<(RawExpr, Cursor<'a>), Failure>
    ensures { Gives (λ x. (x.0, left x.1)) result (test_at (expr_at depth 10) (left cursor.entry)) }
{
    let rest = sign(cursor, Sign::OpenRound)?;
    let (test, rest) = expr(alloc, depth, LEVELS, rest)?;
    let rest = sign(rest, Sign::CloseRound)?;
    Ok((test, rest))
}

#[tactic(auto, unfolding(crate::specs::Reading::send_at))]
fn send<'a>(
    alloc: Global,
    depth: usize,
    token: u32,
    cursor: Cursor<'a>,
) -> Result<(RawStmt, Cursor<'a>), Failure>
    ensures { Gives (λ x. (x.0, left x.1)) result (send_at (expr_at depth 10) token (left cursor.entry)) }
{
    let (value, rest) = expr(alloc, depth, LEVELS, cursor)?;
    let (_, rest) = word(rest, Word::To)?;
    let (stream, rest) = name(alloc, rest)?;
    let (_, rest) = word(rest, Word::After)?;
    let (after, rest) = number(rest)?;
    let (_, rest) = word(rest, Word::On)?;
    let (clock, rest) = name(alloc, rest)?;
    let rest = sign(rest, Sign::Semicolon)?;
    let stmt = RawStmt::Send {
        token,
        value,
        stream,
        after,
        clock,
    };
    Ok((stmt, rest))
}

#[tactic(auto, unfolding(crate::specs::Reading::advance_at))]
fn advance<'a>(
    alloc: Global,
    token: u32,
    cursor: Cursor<'a>,
) -> Result<(RawStmt, Cursor<'a>), Failure>
    ensures { Gives (λ x. (x.0, left x.1)) result (advance_at token (left cursor.entry)) }
{
    let (count, rest) = number(cursor)?;
    let (_, rest) = word(rest, Word::On)?;
    let (clock, rest) = name(alloc, rest)?;
    let (budget, rest) = optional_number(rest, Word::Budget)?;
    let rest = sign(rest, Sign::Semicolon)?;
    let stmt = RawStmt::Advance {
        token,
        count,
        clock,
        budget,
    };
    Ok((stmt, rest))
}

#[tactic(auto, unfolding(crate::specs::Reading::return_at))]
fn return_stmt<'a>(
    alloc: Global,
    depth: usize,
    token: u32,
    cursor: Cursor<'a>,
) -> Result<(RawStmt, Cursor<'a>), Failure>
    ensures { Gives (λ x. (x.0, left x.1)) result (return_at (expr_at depth 10) token (left cursor.entry)) }
{
    let (value, rest) = expr(alloc, depth, LEVELS, cursor)?;
    let rest = sign(rest, Sign::Semicolon)?;
    Ok((RawStmt::Return { token, value }, rest))
}

/// The rest of an assignment to a variable.
#[tactic(auto, unfolding(crate::specs::Reading::set_at))]
fn set<'a>(
    alloc: Global,
    depth: usize,
    name: Name,
    cursor: Cursor<'a>,
) -> Result<(RawStmt, Cursor<'a>), Failure>
    ensures { Gives (λ x. (x.0, left x.1)) result (set_at (expr_at depth 10) name (left cursor.entry)) }
{
    let rest = sign(cursor, Sign::Assign)?;
    let (value, rest) = expr(alloc, depth, LEVELS, rest)?;
    let rest = sign(rest, Sign::Semicolon)?;
    Ok((RawStmt::Set(name, value), rest))
}

/// The rest of an assignment to a cell, behind its opening bracket.
#[tactic(auto, unfolding(crate::specs::Reading::set_cell_at))]
fn set_cell<'a>(
    alloc: Global,
    depth: usize,
    name: Name,
    cursor: Cursor<'a>,
) -> Result<(RawStmt, Cursor<'a>), Failure>
    ensures { Gives (λ x. (x.0, left x.1)) result (set_cell_at (expr_at depth 10) name (left cursor.entry)) }
{
    let (index, rest) = expr(alloc, depth, LEVELS, cursor)?;
    let rest = sign(rest, Sign::CloseSquare)?;
    let rest = sign(rest, Sign::Assign)?;
    let (value, rest) = expr(alloc, depth, LEVELS, rest)?;
    let rest = sign(rest, Sign::Semicolon)?;
    Ok((RawStmt::SetCell(name, index, value), rest))
}
