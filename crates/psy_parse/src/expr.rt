//! How expressions are read.
ghost use Rattle.psy_parse.specs.Reading.{Gives, left, in_brackets_at, past_at, cast_at, args_at, behind_name_at, primary_at, operand_at, expr_at, climb_at};
ghost use Rattle.psy_parse.specs.Reading.{others_at};

use crate::cursor::Cursor;
use crate::fault::Failure;
use crate::reader::{
    after_number, after_sign, after_type, after_word, binary_operator, name, number, sign, stuck,
    unary_operator,
};
use psy_arith::Width;
use psy_base::{Boxed, Items};
use psy_tree::{Name, RawExpr, Sign, Word};
use std::alloc::Global;

/// The levels of the operators between two operands.
pub const LEVELS: u32 = 10;

/// The expression with operators of levels below `level` that stands here. `depth` bounds the
/// recursion.
#[cycle(expr)]
#[tactic(auto, unfolding(crate::specs::Reading::expr_at))]
pub fn expr<'a>(
    alloc: Global,
    depth: usize,
    level: u32,
    cursor: Cursor<'a>,
) -> Result<(RawExpr, Cursor<'a>), Failure>
    ensures { Gives (λ x. (x.0, left x.1)) result (expr_at depth level (left cursor.entry)) }
{
    if depth == 0 {
        return Err(stuck(cursor));
    }
    let (first, rest) = operand(alloc, depth - 1, cursor)?;
    climb(alloc, depth - 1, level, first, rest)
}

/// The operators behind a left side, each with its right side: each is the left side of the next.
#[cycle(expr)]
#[tactic(auto, unfolding(crate::specs::Reading::climb_at))]
fn climb<'a>(
    alloc: Global,
    mut depth: usize,
    level: u32,
    first: RawExpr,
    cursor: Cursor<'a>,
) -> Result<(RawExpr, Cursor<'a>), Failure>
    ensures { Gives (λ x. (x.0, left x.1)) result (climb_at depth level first (left cursor.entry)) }
{
    let mut whole = first;
    let mut rest = cursor;
    while depth > 0 {
        depth -= 1;
        let Some((own, op, after)) = binary_operator(rest, level) else {
            return Ok((whole, rest));
        };
        let (right, after) = expr(alloc, depth, own, after)?;
        whole = RawExpr::Binary(op, Boxed::new(alloc, whole)?, Boxed::new(alloc, right)?);
        rest = after;
    }
    Err(stuck(rest))
}

/// An operand with the operators before it.
#[cycle(expr)]
#[tactic(auto, unfolding(crate::specs::Reading::operand_at))]
fn operand<'a>(
    alloc: Global,
    depth: usize,
    cursor: Cursor<'a>,
) -> Result<(RawExpr, Cursor<'a>), Failure>
    ensures { Gives (λ x. (x.0, left x.1)) result (operand_at (expr_at depth) (others_at depth) (left cursor.entry)) }
{
    let Some((op, rest)) = unary_operator(cursor) else {
        return primary(alloc, depth, cursor);
    };
    let (inner, rest) = expr(alloc, depth, 0, rest)?;
    Ok((RawExpr::Unary(op, Boxed::new(alloc, inner)?), rest))
}

#[cycle(expr)]
#[tactic(auto, unfolding(crate::specs::Reading::primary_at))]
fn primary<'a>(
    alloc: Global,
    depth: usize,
    cursor: Cursor<'a>,
) -> Result<(RawExpr, Cursor<'a>), Failure>
    ensures { Gives (λ x. (x.0, left x.1)) result (primary_at (expr_at depth 10) (others_at depth) (left cursor.entry)) }
{
    if let Some(rest) = after_sign(cursor, Sign::OpenRound) {
        let (inner, rest) = expr(alloc, depth, LEVELS, rest)?;
        let rest = sign(rest, Sign::CloseRound)?;
        return Ok((inner, rest));
    }
    if let Some((width, rest)) = after_type(cursor) {
        return cast(alloc, depth, width, rest);
    }
    if let Some((token, rest)) = after_word(cursor, Word::Past) {
        return past(alloc, token, rest);
    }
    if let Some((token, rest)) = after_word(cursor, Word::Ready) {
        let (name, rest) = in_brackets(alloc, rest)?;
        return Ok((RawExpr::Ready { token, name }, rest));
    }
    if let Some((token, rest)) = after_word(cursor, Word::Take) {
        let (name, rest) = in_brackets(alloc, rest)?;
        return Ok((RawExpr::Take { token, name }, rest));
    }
    if let Some((lit, rest)) = after_number(cursor) {
        return Ok((RawExpr::Number(lit), rest));
    }
    let (name, rest) = name(alloc, cursor)?;
    behind_name(alloc, depth, name, rest)
}

/// What stands behind the word of a type that an expression is cast to.
#[cycle(expr)]
#[tactic(auto, unfolding(crate::specs::Reading::cast_at))]
fn cast<'a>(
    alloc: Global,
    depth: usize,
    width: Width,
    cursor: Cursor<'a>,
) -> Result<(RawExpr, Cursor<'a>), Failure>
    ensures { Gives (λ x. (x.0, left x.1)) result (cast_at (expr_at depth 10) width (left cursor.entry)) }
{
    let rest = sign(cursor, Sign::OpenRound)?;
    let (inner, rest) = expr(alloc, depth, LEVELS, rest)?;
    let rest = sign(rest, Sign::CloseRound)?;
    Ok((RawExpr::Cast(width, Boxed::new(alloc, inner)?), rest))
}

/// A variable, a cell of an array or a call, by what stands behind the name.
#[cycle(expr)]
#[tactic(auto, unfolding(crate::specs::Reading::behind_name_at))]
fn behind_name<'a>(
    alloc: Global,
    depth: usize,
    name: Name,
    cursor: Cursor<'a>,
) -> Result<(RawExpr, Cursor<'a>), Failure>
    ensures { Gives (λ x. (x.0, left x.1)) result (behind_name_at (expr_at depth 10) (others_at depth) name (left cursor.entry)) }
{
    if let Some(rest) = after_sign(cursor, Sign::OpenSquare) {
        let (index, rest) = expr(alloc, depth, LEVELS, rest)?;
        let rest = sign(rest, Sign::CloseSquare)?;
        return Ok((RawExpr::Cell(name, Boxed::new(alloc, index)?), rest));
    }
    if let Some(rest) = after_sign(cursor, Sign::OpenRound) {
        let (args, rest) = args(alloc, depth, rest)?;
        return Ok((RawExpr::Call(name, args), rest));
    }
    Ok((RawExpr::Var(name), cursor))
}

/// The arguments of a call, and the closing bracket.
#[cycle(expr)]
#[tactic(auto, unfolding(crate::specs::Reading::args_at))]
fn args<'a>(
    alloc: Global,
    depth: usize,
    cursor: Cursor<'a>,
) -> Result<(Items<RawExpr>, Cursor<'a>), Failure>
    ensures { Gives (λ x. (x.0, left x.1)) result (args_at (expr_at depth 10) (others_at depth) (left cursor.entry)) }
{
    let mut args = Items::new(alloc);
    if let Some(rest) = after_sign(cursor, Sign::CloseRound) {
        return Ok((args, rest));
    }
    let (first, rest) = expr(alloc, depth, LEVELS, cursor)?;
    args.push(first)?;
    others(alloc, depth, args, rest)
}

/// The arguments behind these, and the closing bracket.
#[cycle(expr)]
#[tactic(auto, unfolding(crate::specs::Reading::others_at))]
fn others<'a>(
    alloc: Global,
    mut depth: usize,
    first: Items<RawExpr>,
    cursor: Cursor<'a>,
) -> Result<(Items<RawExpr>, Cursor<'a>), Failure>
    ensures { Gives (λ x. (x.0, left x.1)) result (others_at depth first (left cursor.entry)) }
{
    let mut args = first;
    let mut rest = cursor;
    while depth > 0 {
        depth -= 1;
        if let Some(after) = after_sign(rest, Sign::CloseRound) {
            return Ok((args, after));
        }
        let after = sign(rest, Sign::Comma)?;
        let (arg, after) = expr(alloc, depth, LEVELS, after)?;
        args.push(arg)?;
        rest = after;
    }
    Err(stuck(rest))
}

/// A name in round brackets.
#[tactic(auto, unfolding(crate::specs::Reading::in_brackets_at))]
fn in_brackets<'a>(alloc: Global, cursor: Cursor<'a>) -> Result<(Name, Cursor<'a>), Failure>
    ensures { Gives (λ x. (x.0, left x.1)) result (in_brackets_at (left cursor.entry)) }
{
    let rest = sign(cursor, Sign::OpenRound)?;
    let (name, rest) = name(alloc, rest)?;
    let rest = sign(rest, Sign::CloseRound)?;
    Ok((name, rest))
}

/// What stands behind the word `past`.
#[tactic(auto, unfolding(crate::specs::Reading::past_at))]
fn past<'a>(alloc: Global, token: u32, cursor: Cursor<'a>) -> Result<(RawExpr, Cursor<'a>), Failure>
    ensures { Gives (λ x. (x.0, left x.1)) result (past_at token (left cursor.entry)) }
{
    let rest = sign(cursor, Sign::OpenRound)?;
    let (name, rest) = name(alloc, rest)?;
    let rest = sign(rest, Sign::Comma)?;
    let (back, rest) = number(rest)?;
    let rest = sign(rest, Sign::CloseRound)?;
    Ok((RawExpr::Past { token, name, back }, rest))
}
