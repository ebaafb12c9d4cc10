//! The first `}` whose line begins at another column than that of the `{` which it closes.
ghost use Rattle.std.specs.Prelude.{◌≡◌, ◌≤◌, IfOk, [], length, take};
ghost use Rattle.std.specs.List.{prefix_len};
ghost use Rattle.psy_tree.specs.Tokens.{TokensOf};
ghost use Rattle.psy_where.specs.Indents.{first_pair, is_space, line_from, line_of, pair_of};

use psy_base::Memory;
use psy_expect::{Brace, brace_of};
use psy_spot::back_len;
use psy_tree::Token;
use std::alloc::Global;

/// A `}`, and the `{` that it closes, by their places.
#[derive(Clone, Copy, Debug, PartialEq, Eq)]
pub struct Pair {
    pub opening: usize,
    pub closing: usize,
}

// A line: where its first byte stands that is no blank and no tab, and how many of these stand before that.
#[derive(Clone, Copy, Debug, PartialEq, Eq)]
struct Line {
    first: usize,
    indent: usize,
}

// A `{`, and how many blanks and tabs stand before the first byte of its line.
#[derive(Clone, Copy, Debug, PartialEq, Eq)]
struct Opening {
    place: usize,
    indent: usize,
}

/// The first `}` of so many tokens of a text that stands first in its line, at another column than that at which the line of its `{` begins.
pub fn first_pair(
    alloc: Global,
    text: &[u8],
    tokens: &[Token],
    many: usize,
) -> Result<Option<Pair>, Memory>
    requires tokens { TokensOf text.now tokens.now }
    requires within { many ≤ length tokens.now }
    ensures { IfOk result (λ pair. pair ≡ first_pair text.now [] (take many tokens.now)) }
{
    let front = &tokens[..many];
    let mut openings = Vec::new(alloc);
    let mut line = line_from(text, 0);
    let mut seen = 0;
    let mut at = 0;
    'each: while at < front.len() {
        let token = &front[at];
        let place = token.place as usize;
        line = line_behind(text, line, seen, place);
        seen = place;
        match brace_of(&token.kind) {
            Brace::Opens => openings.push(Opening {
                place,
                indent: line.indent,
            })?,
            Brace::Closes => {
                let pair = pair_of(line, place, openings.pop());
                if pair.is_some() {
                    return Ok(pair);
                }
            }
            Brace::Neither => {}
        }
        at += 1;
    }
    Ok(None)
}

// The pair that a `}` makes with the innermost open `{`.
fn pair_of(line: Line, place: usize, opening: Option<Opening>) -> Option<Pair>
    ensures { result ≡ pair_of line place opening }
{
    match opening {
        None => None,
        Some(opening) => {
            if line.first == place && opening.indent != line.indent {
                Some(Pair {
                    opening: opening.place,
                    closing: place,
                })
            } else {
                None
            }
        }
    }
}

// The line of a place, by that of a place before it.
fn line_behind(text: &[u8], line: Line, seen: usize, place: usize) -> Line
    requires order { seen ≤ place }
    requires within { place ≤ length text.now }
    requires line { line ≡ line_of text.now seen }
    ensures { result ≡ line_of text.now place }
{
    let front = &text[..place];
    let between = &front[seen..];
    let back = back_len(between);
    if back == between.len() {
        line
    } else {
        line_from(text, place - back)
    }
}

// The line that begins there.
fn line_from(text: &[u8], start: usize) -> Line
    requires { start ≤ length text.now }
    ensures { result ≡ line_from text.now start }
{
    let indent = spaces(&text[start..]);
    Line {
        first: start + indent,
        indent,
    }
}

// How many blanks and tabs stand at the front.
fn spaces(bytes: &[u8]) -> usize
    ensures value { result ≡ prefix_len is_space bytes.now }
    ensures within { result ≤ length bytes.now }
{
    bytes.iter().take_while(|b| is_space(**b)).count()
}

fn is_space(byte: u8) -> bool
    ensures { result ≡ is_space byte }
{
    byte == b' ' || byte == b'\t'
}
