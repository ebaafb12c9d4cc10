//! How a program and its declarations are read.
ghost use Rattle.std.specs.Prelude.{[]};
ghost use Rattle.psy_parse.specs.Reading.{Gives, left, start_at, array_at, scalar_at, local_at, locals_at, param_at, further_at, params_at};
ghost use Rattle.psy_parse.specs.Reading.{parent_at, shift_at, clock_at, temporal_at, input_at, stream_at, function_at, agent_at, declaration_at};
ghost use Rattle.psy_parse.specs.Reading.{program_at, quantum_at, text_at};

use crate::cursor::Cursor;
use crate::fault::Failure;
use crate::reader::{
    after_sign, after_type, after_word, at_end, name, number, optional_number, sign, stuck, word,
};
use crate::stmt::block;
use psy_arith::Width;
use psy_base::Items;
use psy_tree::{Init, Item, Lit, Local, Name, Raw, Sign, Word};
use std::alloc::Global;

/// A whole program. `depth` bounds the recursion.
#[tactic(auto, unfolding(crate::specs::Reading::text_at))]
pub fn text(alloc: Global, depth: usize, cursor: Cursor) -> Result<Raw, Failure>
    ensures { Gives (λ x. x) result (text_at depth (left cursor.entry)) }
{
    let (quantum, rest) = quantum(cursor)?;
    let items = declarations(alloc, depth, rest)?;
    Ok(Raw { quantum, items })
}

/// The length of the tick, behind which the declarations stand.
#[tactic(auto, unfolding(crate::specs::Reading::quantum_at))]
fn quantum<'a>(cursor: Cursor<'a>) -> Result<(Lit, Cursor<'a>), Failure>
    ensures { Gives (λ x. (x.0, left x.1)) result (quantum_at (left cursor.entry)) }
{
    let (_, rest) = word(cursor, Word::Tick)?;
    let (quantum, rest) = number(rest)?;
    let rest = sign(rest, Sign::Semicolon)?;
    Ok((quantum, rest))
}

/// The declarations up to the end of the text.
#[tactic(auto, unfolding(crate::specs::Reading::program_at))]
fn declarations(alloc: Global, mut depth: usize, cursor: Cursor) -> Result<Items<Item>, Failure>
    ensures { Gives (λ x. x) result (program_at depth [] (left cursor.entry)) }
{
    let mut items = Items::new(alloc);
    let mut rest = cursor;
    while depth > 0 {
        depth -= 1;
        if at_end(rest) {
            return Ok(items);
        }
        let (item, after) = declaration(alloc, depth, rest)?;
        items.push(item)?;
        rest = after;
    }
    Err(stuck(rest))
}

/// A declaration, by its first word.
#[tactic(auto, unfolding(crate::specs::Reading::declaration_at))]
fn declaration<'a>(
    alloc: Global,
    depth: usize,
    cursor: Cursor<'a>,
) -> Result<(Item, Cursor<'a>), Failure>
    ensures { Gives (λ x. (x.0, left x.1)) result (declaration_at depth (left cursor.entry)) }
{
    if let Some((_, rest)) = after_word(cursor, Word::Clock) {
        return clock(alloc, rest);
    }
    if let Some((_, rest)) = after_word(cursor, Word::Temporal) {
        return temporal(alloc, rest);
    }
    if let Some((_, rest)) = after_word(cursor, Word::Input) {
        return input(alloc, rest);
    }
    if let Some((_, rest)) = after_word(cursor, Word::Stream) {
        return stream(alloc, rest);
    }
    if let Some((_, rest)) = after_word(cursor, Word::Int) {
        return function(alloc, depth, rest);
    }
    if let Some((_, rest)) = after_word(cursor, Word::Agent) {
        return agent(alloc, depth, rest);
    }
    Err(stuck(cursor))
}

#[tactic(auto, unfolding(crate::specs::Reading::clock_at))]
fn clock<'a>(alloc: Global, cursor: Cursor<'a>) -> Result<(Item, Cursor<'a>), Failure>
    ensures { Gives (λ x. (x.0, left x.1)) result (clock_at (left cursor.entry)) }
{
    let (name, rest) = name(alloc, cursor)?;
    let rest = sign(rest, Sign::Assign)?;
    let (by, rest) = number(rest)?;
    let rest = sign(rest, Sign::Star)?;
    let (parent, rest) = parent(alloc, rest)?;
    let (shift, rest) = shift(rest)?;
    let item = Item::Clock {
        name,
        by,
        parent,
        shift,
    };
    Ok((item, rest))
}

/// The clock that another is counted on.
#[tactic(auto, unfolding(crate::specs::Reading::parent_at))]
fn parent<'a>(alloc: Global, cursor: Cursor<'a>) -> Result<(Option<Name>, Cursor<'a>), Failure>
    ensures { Gives (λ x. (x.0, left x.1)) result (parent_at (left cursor.entry)) }
{
    if let Some((_, rest)) = after_word(cursor, Word::Tick) {
        return Ok((None, rest));
    }
    let (name, rest) = name(alloc, cursor)?;
    Ok((Some(name), rest))
}

/// The shift of a clock, and the semicolon.
#[tactic(auto, unfolding(crate::specs::Reading::shift_at))]
fn shift<'a>(cursor: Cursor<'a>) -> Result<(Option<Lit>, Cursor<'a>), Failure>
    ensures { Gives (λ x. (x.0, left x.1)) result (shift_at (left cursor.entry)) }
{
    if let Some(rest) = after_sign(cursor, Sign::Plus) {
        let (shift, rest) = number(rest)?;
        let rest = sign(rest, Sign::Semicolon)?;
        return Ok((Some(shift), rest));
    }
    let rest = sign(cursor, Sign::Semicolon)?;
    Ok((None, rest))
}

#[tactic(auto, unfolding(crate::specs::Reading::temporal_at))]
fn temporal<'a>(alloc: Global, cursor: Cursor<'a>) -> Result<(Item, Cursor<'a>), Failure>
    ensures { Gives (λ x. (x.0, left x.1)) result (temporal_at (left cursor.entry)) }
{
    let (variable, rest) = name(alloc, cursor)?;
    let (_, rest) = word(rest, Word::Of)?;
    let (owner, rest) = name(alloc, rest)?;
    let (_, rest) = word(rest, Word::On)?;
    let (clock, rest) = name(alloc, rest)?;
    let rest = sign(rest, Sign::Assign)?;
    let (init, rest) = start(rest)?;
    let (_, rest) = word(rest, Word::Depth)?;
    let (depth, rest) = number(rest)?;
    let rest = sign(rest, Sign::Semicolon)?;
    let item = Item::Temporal {
        name: variable,
        owner,
        clock,
        init,
        depth,
    };
    Ok((item, rest))
}

#[tactic(auto, unfolding(crate::specs::Reading::input_at))]
fn input<'a>(alloc: Global, cursor: Cursor<'a>) -> Result<(Item, Cursor<'a>), Failure>
    ensures { Gives (λ x. (x.0, left x.1)) result (input_at (left cursor.entry)) }
{
    let (variable, rest) = name(alloc, cursor)?;
    let (_, rest) = word(rest, Word::On)?;
    let (clock, rest) = name(alloc, rest)?;
    let rest = sign(rest, Sign::Assign)?;
    let (init, rest) = start(rest)?;
    let (_, rest) = word(rest, Word::Depth)?;
    let (depth, rest) = number(rest)?;
    let rest = sign(rest, Sign::Semicolon)?;
    let item = Item::Input {
        name: variable,
        clock,
        init,
        depth,
    };
    Ok((item, rest))
}

#[tactic(auto, unfolding(crate::specs::Reading::stream_at))]
fn stream<'a>(alloc: Global, cursor: Cursor<'a>) -> Result<(Item, Cursor<'a>), Failure>
    ensures { Gives (λ x. (x.0, left x.1)) result (stream_at (left cursor.entry)) }
{
    let (stream, rest) = name(alloc, cursor)?;
    let (_, rest) = word(rest, Word::To)?;
    let (receiver, rest) = name(alloc, rest)?;
    let (_, rest) = word(rest, Word::Keep)?;
    let (keep, rest) = number(rest)?;
    let (_, rest) = word(rest, Word::On)?;
    let (clock, rest) = name(alloc, rest)?;
    let rest = sign(rest, Sign::Semicolon)?;
    let item = Item::Stream {
        name: stream,
        receiver,
        keep,
        clock,
    };
    Ok((item, rest))
}

#[tactic(auto, unfolding(crate::specs::Reading::function_at))]
fn function<'a>(
    alloc: Global,
    depth: usize,
    cursor: Cursor<'a>,
) -> Result<(Item, Cursor<'a>), Failure>
    ensures { Gives (λ x. (x.0, left x.1)) result (function_at depth (left cursor.entry)) }
{
    let (name, rest) = name(alloc, cursor)?;
    let rest = sign(rest, Sign::OpenRound)?;
    let (params, rest) = params(alloc, depth, rest)?;
    let rest = sign(rest, Sign::OpenBrace)?;
    let (locals, rest) = locals(alloc, false, depth, rest)?;
    let (stmts, rest) = block(alloc, depth, Items::new(alloc), rest)?;
    let item = Item::Function {
        name,
        params,
        locals,
        stmts,
    };
    Ok((item, rest))
}

#[tactic(auto, unfolding(crate::specs::Reading::agent_at))]
fn agent<'a>(alloc: Global, depth: usize, cursor: Cursor<'a>) -> Result<(Item, Cursor<'a>), Failure>
    ensures { Gives (λ x. (x.0, left x.1)) result (agent_at depth (left cursor.entry)) }
{
    let (agent, rest) = name(alloc, cursor)?;
    let (_, rest) = word(rest, Word::On)?;
    let (clock, rest) = name(alloc, rest)?;
    let (processor, rest) = optional_number(rest, Word::Processor)?;
    let (_, rest) = word(rest, Word::Budget)?;
    let (budget, rest) = number(rest)?;
    let rest = sign(rest, Sign::OpenBrace)?;
    let (locals, rest) = locals(alloc, true, depth, rest)?;
    let (body_token, rest) = word(rest, Word::Body)?;
    let rest = sign(rest, Sign::OpenBrace)?;
    let (stmts, rest) = block(alloc, depth, Items::new(alloc), rest)?;
    let rest = sign(rest, Sign::CloseBrace)?;
    let item = Item::Agent {
        name: agent,
        clock,
        processor,
        budget,
        locals,
        body_token,
        stmts,
    };
    Ok((item, rest))
}

/// The parameters of a function, and the closing bracket.
#[tactic(auto, unfolding(crate::specs::Reading::params_at))]
fn params<'a>(
    alloc: Global,
    depth: usize,
    cursor: Cursor<'a>,
) -> Result<(Items<Name>, Cursor<'a>), Failure>
    ensures { Gives (λ x. (x.0, left x.1)) result (params_at depth (left cursor.entry)) }
{
    let mut params = Items::new(alloc);
    if let Some(rest) = after_sign(cursor, Sign::CloseRound) {
        return Ok((params, rest));
    }
    let (first, rest) = param(alloc, cursor)?;
    params.push(first)?;
    further_params(alloc, depth, params, rest)
}

/// The parameters behind these, and the closing bracket.
#[tactic(auto, unfolding(crate::specs::Reading::further_at))]
fn further_params<'a>(
    alloc: Global,
    mut depth: usize,
    first: Items<Name>,
    cursor: Cursor<'a>,
) -> Result<(Items<Name>, Cursor<'a>), Failure>
    ensures { Gives (λ x. (x.0, left x.1)) result (further_at depth first (left cursor.entry)) }
{
    let mut params = first;
    let mut rest = cursor;
    while depth > 0 {
        depth -= 1;
        if let Some(after) = after_sign(rest, Sign::CloseRound) {
            return Ok((params, after));
        }
        let after = sign(rest, Sign::Comma)?;
        let (next, after) = param(alloc, after)?;
        params.push(next)?;
        rest = after;
    }
    Err(stuck(rest))
}

#[tactic(auto, unfolding(crate::specs::Reading::param_at))]
fn param<'a>(alloc: Global, cursor: Cursor<'a>) -> Result<(Name, Cursor<'a>), Failure>
    ensures { Gives (λ x. (x.0, left x.1)) result (param_at (left cursor.entry)) }
{
    let (_, rest) = word(cursor, Word::Int)?;
    name(alloc, rest)
}

/// The locals of a function, which has no arrays, or of an agent.
#[tactic(auto, unfolding(crate::specs::Reading::locals_at))]
fn locals<'a>(
    alloc: Global,
    arrays: bool,
    mut depth: usize,
    cursor: Cursor<'a>,
) -> Result<(Items<Local>, Cursor<'a>), Failure>
    ensures { Gives (λ x. (x.0, left x.1)) result (locals_at arrays depth [] (left cursor.entry)) }
{
    let mut locals = Items::new(alloc);
    let mut rest = cursor;
    while depth > 0 {
        depth -= 1;
        let Some((width, after)) = after_type(rest) else {
            return Ok((locals, rest));
        };
        let (next, after) = local(alloc, arrays, width, after)?;
        locals.push(next)?;
        rest = after;
    }
    Err(stuck(rest))
}

/// A local, behind the word of its type.
#[tactic(auto, unfolding(crate::specs::Reading::local_at))]
fn local<'a>(
    alloc: Global,
    arrays: bool,
    width: Width,
    cursor: Cursor<'a>,
) -> Result<(Local, Cursor<'a>), Failure>
    ensures { Gives (λ x. (x.0, left x.1)) result (local_at arrays width (left cursor.entry)) }
{
    let (name, rest) = name(alloc, cursor)?;
    if arrays {
        if let Some(rest) = after_sign(rest, Sign::OpenSquare) {
            return array(width, name, rest);
        }
    }
    scalar(width, name, rest)
}

/// The rest of an array's declaration, behind its opening bracket.
#[tactic(auto, unfolding(crate::specs::Reading::array_at))]
fn array<'a>(width: Width, name: Name, cursor: Cursor<'a>) -> Result<(Local, Cursor<'a>), Failure>
    ensures { Gives (λ x. (x.0, left x.1)) result (array_at width name (left cursor.entry)) }
{
    let (cells, rest) = number(cursor)?;
    let rest = sign(rest, Sign::CloseSquare)?;
    let rest = sign(rest, Sign::Semicolon)?;
    Ok((Local::Array(width, name, cells), rest))
}

/// The rest of a variable's declaration.
#[tactic(auto, unfolding(crate::specs::Reading::scalar_at))]
fn scalar<'a>(width: Width, name: Name, cursor: Cursor<'a>) -> Result<(Local, Cursor<'a>), Failure>
    ensures { Gives (λ x. (x.0, left x.1)) result (scalar_at width name (left cursor.entry)) }
{
    let rest = sign(cursor, Sign::Assign)?;
    let (init, rest) = start(rest)?;
    let rest = sign(rest, Sign::Semicolon)?;
    Ok((Local::Scalar(width, name, init), rest))
}

/// A first value.
#[tactic(auto, unfolding(crate::specs::Reading::start_at))]
fn start<'a>(cursor: Cursor<'a>) -> Result<(Init, Cursor<'a>), Failure>
    ensures { Gives (λ x. (x.0, left x.1)) result (start_at (left cursor.entry)) }
{
    if let Some(rest) = after_sign(cursor, Sign::Minus) {
        let (value, rest) = number(rest)?;
        return Ok((Init { minus: true, value }, rest));
    }
    let (value, rest) = number(cursor)?;
    Ok((
        Init {
            minus: false,
            value,
        },
        rest,
    ))
}
