//! The view of texts that the words ask for.
ghost use Rattle.std.specs.Prelude.{◌≡◌, ◌≤◌, [], ◌∷◌, ◌++◌, IfOk, OnOk, codes, length, map, string_bytes};
ghost use Rattle.std.specs.List.{flat_map};
ghost use Rattle.psy_base.specs.declared.limits.TheConstants.{FILE_BYTES};
ghost use Rattle.psy_view.specs.Asked.{Dot, Where, line_of_words};
ghost use Rattle.psy_view.specs.Reading.{most_of_one, most_of_other, request_of_one, request_of_two};
ghost use Rattle.psy_view.specs.Views.{ViewOf};

use crate::asked::{One, Two};
use crate::log::{compared, expected};
use crate::plan::{fed, listed, reported};
use crate::programs::dotted_of;
use crate::refusals::broken_text;
use crate::told::told_of;
use psy_base::Memory;
use psy_draw::dot;
use psy_notes::{TextFault, read_graph};
use std::alloc::{AllocError, Global};

/// A status, and what is written.
#[derive(Debug, Drop)]
pub struct View {
    pub status: u8,
    pub text: Vec<u8>,
}

/// The view of a file's text. The only error is want of memory.
pub fn view_of(alloc: Global, name: &str, view: &One, bytes: &[u8]) -> Result<View, Memory>
    requires { length bytes.now ≤ most_of_one view.now }
    ensures { IfOk result (λ v. ViewOf (request_of_one name.now view.now) (bytes.now ∷ []) v.status v.text.items) }
{
    match *view {
        One::Where { words } => explained(alloc, name, words, bytes),
        One::Dot => dotted(alloc, name, bytes),
        One::Flow => fed(alloc, name, bytes),
        One::List => listed(alloc, name, bytes),
        One::Report { until } => reported(alloc, name, bytes, until),
    }
}

/// The view of two files' texts. The only error is want of memory.
#[tactic(auto, using(crate::specs::Views::compared, crate::specs::Views::expected))]
pub fn view_of_both(
    alloc: Global,
    name: &str,
    other: &str,
    view: &Two,
    first: &[u8],
    second: &[u8],
) -> Result<View, Memory>
    requires { length second.now ≤ most_of_other view.now }
    ensures { IfOk result (λ v. ViewOf (request_of_two name.now other.now view.now) (first.now ∷ second.now ∷ []) v.status v.text.items) }
{
    match *view {
        Two::Diff => compared(alloc, name, other, first, second),
        Two::Expect => expected(alloc, name, other, first, second),
        Two::Dot => dotted_of(alloc, name, other, first, second),
    }
}

// The words as they stood in one line.
fn line_of_words(alloc: Global, words: &[String]) -> Result<Vec<u8>, AllocError>
    ensures { IfOk result (λ line. line.items ≡ line_of_words (map string_bytes words.now)) }
{
    match words {
        [] => Ok(Vec::new(alloc)),
        [first, more @ ..] => line_from(alloc, first.as_str(), more),
    }
}

// The same for a word and more words.
#[tactic(auto, using(crate::proofs::AskedLemmas::line_from))]
fn line_from(alloc: Global, first: &str, more: &[String]) -> Result<Vec<u8>, AllocError>
    ensures { IfOk result (λ line. line.items ≡ line_of_words (first.now ∷ map string_bytes more.now)) }
{
    let mut line = Vec::from_slice(alloc, first.as_bytes())?;
    add_words(&mut line, more)?;
    Ok(line)
}

// Adds these words, each behind a space.
fn add_words(line: &mut Vec<u8>, words: &[String]) -> Result<(), AllocError>
    ensures { OnOk result (line.new.items ≡ line.old.items ++ flat_map (λ word. codes " " ++ string_bytes word) words.now) }
{
    for word in words {
        line.push(b' ')?;
        line.extend_from_slice(word.as_bytes())?;
    }
    Ok(())
}

#[tactic(auto, using(crate::specs::Views::where_told))]
fn explained(alloc: Global, name: &str, words: &[String], bytes: &[u8]) -> Result<View, Memory>
    requires { length bytes.now ≤ FILE_BYTES }
    ensures { IfOk result (λ v. ViewOf (Where name.now (line_of_words (map string_bytes words.now))) (bytes.now ∷ []) v.status v.text.items) }
{
    let line = line_of_words(alloc, words)?;
    told_of(alloc, name, bytes, line.as_slice())
}

#[tactic(auto, using(crate::specs::Views::dotted, crate::specs::Views::no_graph))]
fn dotted(alloc: Global, name: &str, bytes: &[u8]) -> Result<View, Memory>
    ensures { IfOk result (λ v. ViewOf (Dot name.now) (bytes.now ∷ []) v.status v.text.items) }
{
    match read_graph(alloc, bytes) {
        Ok(notes) => Ok(View {
            status: 0,
            text: dot(alloc, notes.as_slice())?,
        }),
        Err(TextFault::Line { line }) => {
            Ok(View {
                status: 1,
                text: broken_text(alloc, name.as_bytes(), line, b"graph", bytes)?,
            })
        }
        Err(TextFault::Memory) => Err(Memory),
    }
}
