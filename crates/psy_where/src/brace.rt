//! Where the brace stands that is open at a place, and which `}` closes a `{` whose line begins at another column.
ghost use Rattle.std.specs.Prelude.{◌≡◌, ◌++◌, ◌≤◌, IfOk, OnOk, length};
ghost use Rattle.psy_base.specs.declared.limits.TheConstants.{FILE_BYTES};
ghost use Rattle.psy_where.specs.Helps.{brace_help, brace_line, pair_help, pair_line};
ghost use Rattle.psy_spot.specs.Spots.{before_at, line_at};

use crate::indent::Pair;
use psy_show::chars_len;
use psy_spot::{Spot, spot_at};
use psy_text::write::add_labelled;
use std::alloc::{AllocError, Global};

/// `hint: ..` with line and column of the brace at that place, where there is one, and behind it of the pair, where there is one.
pub fn brace_help(
    alloc: Global,
    text: &[u8],
    brace: Option<u32>,
    pair: Option<Pair>,
) -> Result<Vec<u8>, AllocError>
    requires { length text.now ≤ FILE_BYTES }
    ensures { IfOk result (λ help. help.items ≡ brace_help text.now brace pair) }
{
    match brace {
        None => Ok(Vec::new(alloc)),
        Some(place) => brace_lines(alloc, text, place as usize, pair),
    }
}

fn brace_lines(
    alloc: Global,
    text: &[u8],
    place: usize,
    pair: Option<Pair>,
) -> Result<Vec<u8>, AllocError>
    requires { length text.now ≤ FILE_BYTES }
    ensures { IfOk result (λ help. help.items ≡ brace_line text.now place ++ pair_help text.now pair) }
{
    let mut lines = brace_line(alloc, text, place)?;
    let more = pair_help(alloc, text, pair)?;
    lines.extend_from_slice(more.as_slice())?;
    Ok(lines)
}

// `hint: ..` with the lines of the pair, where there is one.
fn pair_help(alloc: Global, text: &[u8], pair: Option<Pair>) -> Result<Vec<u8>, AllocError>
    requires { length text.now ≤ FILE_BYTES }
    ensures { IfOk result (λ help. help.items ≡ pair_help text.now pair) }
{
    match pair {
        None => Ok(Vec::new(alloc)),
        Some(pair) => pair_line(alloc, text, pair),
    }
}

fn pair_line(alloc: Global, text: &[u8], pair: Pair) -> Result<Vec<u8>, AllocError>
    requires { length text.now ≤ FILE_BYTES }
    ensures { IfOk result (λ help. help.items ≡ pair_line text.now pair) }
{
    let closing = spot_of(text, pair.closing);
    let opening = spot_of(text, pair.opening);
    let mut line = Vec::new(alloc);
    add_labelled(&mut line, b"hint: the `}` of line ", closing.line as u64)?;
    add_labelled(&mut line, b" closes the `{` of line ", opening.line as u64)?;
    line.extend_from_slice(b", which begins at another column: is one missing before it?\n")?;
    Ok(line)
}

#[tactic(auto, unfolding(crate::specs::Helps::brace_line))]
fn brace_line(alloc: Global, text: &[u8], place: usize) -> Result<Vec<u8>, AllocError>
    requires { length text.now ≤ FILE_BYTES }
    ensures { IfOk result (λ help. help.items ≡ brace_line text.now place) }
{
    let spot = spot_of(text, place);
    let mut line = Vec::new(alloc);
    add_labelled(
        &mut line,
        b"hint: the innermost `{` that is open here is that of line ",
        spot.line as u64,
    )?;
    add_labelled(&mut line, b", column ", chars_len(spot.before) as u64 + 1)?;
    line.push(b'\n')?;
    Ok(line)
}

// The line of a place, which may lie behind the end.
#[tactic(auto, using(std::proofs::lemmas::List::take_all))]
fn spot_of(text: &[u8], place: usize) -> Spot<'_>
    requires { length text.now ≤ FILE_BYTES }
    ensures line { result.line ≡ line_at text.now place }
    ensures before { result.before.now ≡ before_at text.now place }
    ensures within { length result.before.now ≤ FILE_BYTES }
{
    if place <= text.len() {
        spot_at(text, place)
    } else {
        spot_at(text, text.len())
    }
}
