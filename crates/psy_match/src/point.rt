//! The lines of a program's text in which actions begin.
ghost use Rattle.std.specs.Prelude.{◌≡◌, ◌≤◌, ◌∷◌, ◌++◌, [], IfOk, OnOk, length, map};
ghost use Rattle.psy_base.specs.declared.limits.TheConstants.{FILE_BYTES};
ghost use Rattle.psy_match.specs.Points.{advances, is_advance, is_agent, point_line, point_lines};

use psy_base::{Items, Memory, Text};
use psy_show::add_shown_in;
use psy_spot::spot_at;
use psy_text::line::without_return;
use psy_text::write::add_number;
use psy_tree::{Kind, Token, Word};
use std::alloc::Global;

/// The columns of a line that are told, at most.
pub const LINE_COLUMNS: usize = 40;

/// The lines of a program's text in which actions begin, agent by agent and point by point: the number of the line, and what stands in it from there on,
/// as it is shown.
pub fn point_lines(
    alloc: Global,
    text: &[u8],
    tokens: &[Token],
) -> Result<Items<Items<Text>>, Memory>
    requires { length text.now ≤ FILE_BYTES }
    ensures { IfOk result (λ lines. lines ≡ point_lines text.now tokens.now) }
{
    let mut lines = Items::new(alloc);
    let mut rest = tokens;
    'each: while let Some((token, behind)) = rest.split_first() {
        if is_agent(&token.kind) {
            lines.push(lines_from(alloc, text, token.place, behind)?)?;
        }
        rest = behind;
    }
    Ok(lines)
}

// The lines of the points of an agent that begins at a place, before these tokens.
fn lines_from(
    alloc: Global,
    text: &[u8],
    place: u32,
    behind: &[Token],
) -> Result<Items<Text>, Memory>
    requires { length text.now ≤ FILE_BYTES }
    ensures { IfOk result (λ lines. lines ≡ map (point_line text.now) (place ∷ advances behind.now)) }
{
    let mut lines = Items::new(alloc);
    add_line(alloc, &mut lines, text, place)?;
    let mut rest = behind;
    'each: while let Some((token, later)) = rest.split_first() {
        if is_agent(&token.kind) {
            return Ok(lines);
        }
        if is_advance(&token.kind) {
            add_line(alloc, &mut lines, text, token.place)?;
        }
        rest = later;
    }
    Ok(lines)
}

fn is_agent(kind: &Kind) -> bool
    ensures { result ≡ is_agent kind.now }
{
    matches!(kind, Kind::Word(Word::Agent))
}

fn is_advance(kind: &Kind) -> bool
    ensures { result ≡ is_advance kind.now }
{
    matches!(kind, Kind::Word(Word::Advance))
}

// Adds the line of a place.
fn add_line(alloc: Global, lines: &mut Items<Text>, text: &[u8], place: u32) -> Result<(), Memory>
    requires { length text.now ≤ FILE_BYTES }
    ensures { OnOk result (lines.new ≡ lines.old ++ point_line text.now place ∷ []) }
{
    let line = line_of(alloc, text, place)?;
    lines.push(Text::from_bytes(alloc, line.as_slice())?)?;
    Ok(())
}

fn line_of(alloc: Global, text: &[u8], place: u32) -> Result<Vec<u8>, Memory>
    requires { length text.now ≤ FILE_BYTES }
    ensures { IfOk result (λ line. line.items ≡ point_line text.now place) }
{
    let spot = spot_at(text, (place as usize).min(text.len()));
    let mut line = Vec::new(alloc);
    add_number(&mut line, spot.line as u64)?;
    line.extend_from_slice(b": ")?;
    add_shown_in(alloc, &mut line, without_return(spot.behind), LINE_COLUMNS)?;
    Ok(line)
}
