//! What is written for a refusal.
ghost use Rattle.std.specs.Prelude.{◌≡◌, ◌+◌, ◌++◌, ◌≤◌, ℕ, IfOk, OnOk, length};
ghost use Rattle.psy_base.specs.declared.limits.TheConstants.{FILE_BYTES};
ghost use Rattle.psy_where.specs.declared.fault.WhereFault.{WhereFault};
ghost use Rattle.psy_where.specs.declared.recall.What.{What};
ghost use Rattle.psy_where.specs.Explained.{Explains, IsNone, IsBeyond, IsPlaced, explanation, sentence_line};
ghost use Rattle.psy_where.specs.Lacks.{lack_sentence};
ghost use Rattle.psy_where.specs.Plains.{plain_sentence};
ghost use Rattle.psy_where.specs.Refusals.{IsPlaceOf};
ghost use Rattle.psy_where.specs.Writings.{written_sentence};

use crate::fault::WhereFault;
use crate::help::help;
use crate::lack::{Lack, lack_of};
use crate::mark::marked;
use crate::place::place;
use crate::plain::{Plain, plain_of, plain_sentence};
use crate::recall::{Told, What, told_of};
use crate::with_feed::with_feed;
use crate::written::{Written, written_of, written_words};
use psy_base::Memory;
use psy_notes::laws::one_line;
use psy_notes::read_line;
use psy_show::{add_line, add_shown, chars_len};
use psy_spot::spot_at;
use psy_text::line::without_return;
use psy_text::write::{add_labelled, add_number};
use std::alloc::{AllocError, Global};

/// Explains a line that psyc wrote, `line`: of a refusal of a text of at most 262,144 bytes that stands in a file of this name, `NAME:LINE:COLUMN: ` and
/// what it means, the line, a mark under the place, and what may stand there or is missing; of a line that tells no place, `NAME: ` and what it means.
pub fn explain(alloc: Global, name: &[u8], text: &[u8], line: &[u8]) -> Result<Vec<u8>, WhereFault>
    requires { length text.now ≤ FILE_BYTES }
    ensures explains { IfOk result (λ answer. Explains name.now text.now line.now answer.items) }
    ensures refusal { result ≡ Err WhereFault.NoRefusal → IsNone line.now }
    ensures beyond { result ≡ Err WhereFault.Beyond → IsBeyond text.now line.now }
{
    one_line();
    let whole = with_feed(alloc, line)?;
    let Some(note) = read_line(whole.as_slice()) else {
        return Err(WhereFault::NoRefusal);
    };
    if let Some(told) = told_of(note) {
        return placed(alloc, name, text, told);
    }
    if let Some(plain) = plain_of(note) {
        return Ok(sentence_line(alloc, name, plain_sentence(plain))?);
    }
    if let Some(lack) = lack_of(note) {
        return Ok(lack_line(alloc, name, lack)?);
    }
    if let Some(written) = written_of(note) {
        return Ok(written_line(alloc, name, written)?);
    }
    Err(WhereFault::NoRefusal)
}

/// What a line means that tells no place and has no number of its own, behind the name of the file that it speaks of. The only error is want of memory.
pub fn plain_told(alloc: Global, name: &[u8], plain: Plain) -> Result<Vec<u8>, Memory>
    ensures { IfOk result (λ told. told.items ≡ sentence_line name.now (plain_sentence plain)) }
{
    Ok(sentence_line(alloc, name, plain_sentence(plain))?)
}

// `NAME: SENTENCE`
fn sentence_line(alloc: Global, name: &[u8], sentence: &[u8]) -> Result<Vec<u8>, AllocError>
    ensures { IfOk result (λ answer. answer.items ≡ sentence_line name.now sentence.now) }
{
    let mut out = Vec::new(alloc);
    add_shown(&mut out, name)?;
    out.extend_from_slice(b": ")?;
    out.extend_from_slice(sentence)?;
    out.push(b'\n')?;
    Ok(out)
}

// The same for a demand that can't be supplied.
fn lack_line(alloc: Global, name: &[u8], lack: Lack) -> Result<Vec<u8>, AllocError>
    ensures { IfOk result (λ answer. answer.items ≡ sentence_line name.now (lack_sentence lack)) }
{
    let mut sentence = Vec::from_slice(alloc, b"over ")?;
    add_number(&mut sentence, lack.length)?;
    sentence.extend_from_slice(b" ticks, the least such length, the agents of processor ")?;
    add_number(&mut sentence, u64::from(lack.processor))?;
    sentence.extend_from_slice(b" may ask for ")?;
    add_number(&mut sentence, lack.demand)?;
    sentence.extend_from_slice(b" cycles, and it has ")?;
    add_number(&mut sentence, lack.supply)?;
    sentence.extend_from_slice(
        b": lower a budget, slow a clock down, or give the tick more cycles",
    )?;
    sentence_line(alloc, name, sentence.as_slice())
}

// The same for a line that refuses nothing.
fn written_line(alloc: Global, name: &[u8], written: Written) -> Result<Vec<u8>, AllocError>
    ensures { IfOk result (λ answer. answer.items ≡ sentence_line name.now (written_sentence written)) }
{
    let mut sentence = Vec::from_slice(alloc, b"this line refuses nothing: ")?;
    sentence.extend_from_slice(written_words(written))?;
    sentence_line(alloc, name, sentence.as_slice())
}

// What is written for a refusal that tells a place in the text.
fn placed(alloc: Global, name: &[u8], text: &[u8], told: Told) -> Result<Vec<u8>, WhereFault>
    requires { length text.now ≤ FILE_BYTES }
    ensures placed { IfOk result (λ answer. IsPlaced name.now text.now told.refusal told.sentence.now answer.items) }
    ensures beyond { result ≡ Err WhereFault.Beyond → (place : ℕ) → IsPlaceOf told.refusal.what text.now told.refusal.at place → ⊥ }
    ensures refusal { result ≡ Err WhereFault.NoRefusal → ⊥ }
{
    let what = told.refusal.what;
    let place = place(alloc, what, text, told.refusal.at)?;
    let line = without_return(spot_at(text, place).behind);
    let (earlier, back) = text.split_at(place);
    let help = help(alloc, text, earlier, back, line, told.refusal)?;
    let mut answer = explanation(alloc, name, text, what, told.sentence, place)?;
    answer.extend_from_slice(help.as_slice())?;
    Ok(answer)
}

// `NAME:LINE:COLUMN: SENTENCE`, the line around the place, and carets
fn explanation(
    alloc: Global,
    name: &[u8],
    text: &[u8],
    what: What,
    sentence: &[u8],
    at: usize,
) -> Result<Vec<u8>, AllocError>
    requires at { at ≤ length text.now }
    requires small { length text.now ≤ FILE_BYTES }
    ensures { IfOk result (λ answer. answer.items ≡ explanation name.now text.now what sentence.now at) }
{
    let spot = spot_at(text, at);
    let rest = without_return(spot.behind);
    let mut out = Vec::new(alloc);
    add_shown(&mut out, name)?;
    add_labelled(&mut out, b":", spot.line as u64)?;
    add_labelled(&mut out, b":", chars_len(spot.before) as u64 + 1)?;
    out.extend_from_slice(b": ")?;
    out.extend_from_slice(sentence)?;
    out.push(b'\n')?;
    add_line(alloc, &mut out, spot.before, rest, marked(what, rest))?;
    Ok(out)
}
