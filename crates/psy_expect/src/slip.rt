//! What is written of a token with which no program goes on.
ghost use Rattle.std.specs.Prelude.{◌≡◌, ◌+◌, ◌++◌, ◌≤◌, IfOk, OnOk, length, take};
ghost use Rattle.psy_base.specs.declared.limits.TheConstants.{FILE_BYTES};
ghost use Rattle.psy_expect.specs.Advice.{IsAdvice, IsTried, advice_told, brace_told, hint_line, is_of_brace, may_line, may_words, missing_words};
ghost use Rattle.psy_expect.specs.Advice.{alone_line, alone_words, told_hint, words_line};

use crate::around::{Around, stands_around};
use crate::brace::open_brace;
use crate::follow::followers;
use crate::hint::{Hint, hint_of, hint_words};
use crate::mend::{cut_to, goes_on_behind, menders};
use crate::phrase::{Phrase, add_listed, phrases};
use crate::terminal::{EVERY, Terminal};
use psy_base::limits::{ADVANCE, FILE_BYTES, TURNS};
use psy_base::{Items, Memory};
use psy_text::write::add_number;
use psy_token::word_spelling;
use psy_tree::{Token, Word};
use std::alloc::{AllocError, Global};

// What was tried at a place: which terminals may stand there, which of those mend it, and whether the token there is one too many.
#[derive(Drop)]
pub struct Tried {
    pub told: Vec<Terminal>,
    pub mends: Vec<Terminal>,
    pub is_extra: bool,
}

/// What is told of a place: lines of text, and the place of the innermost `{` that is open there, where the hint is that a `}` is missing.
#[derive(Drop)]
pub struct Remark {
    pub text: Vec<u8>,
    pub brace: Option<u32>,
}

/// Advice for the place of that number among tokens: what may stand there, and a hint where a common slip stands there. The only error is
/// want of memory.
pub fn advice(alloc: Global, tokens: Items<Token>, at: usize) -> Result<Remark, Memory>
    requires few { length tokens ≤ FILE_BYTES }
    requires within { at ≤ length tokens }
    ensures { IfOk result (λ remark. IsAdvice tokens at remark.text.items remark.brace) }
{
    let around = stands_around(tokens.as_slice(), at);
    let mut front = tokens;
    cut_to(&mut front, at);
    let brace = open_brace(front.as_slice());
    let tried = tried_at(alloc, front, around)?;
    let hint = hint_of(
        around,
        tried.told.as_slice(),
        tried.mends.as_slice(),
        tried.is_extra,
    );
    let mut text = Vec::new(alloc);
    add_advice(alloc, &mut text, hint, &tried)?;
    Ok(Remark {
        text,
        brace: brace_told(hint, brace),
    })
}

// The open brace, where the hint tells of one.
fn brace_told(hint: Option<Hint>, brace: Option<u32>) -> Option<u32>
    ensures { result ≡ brace_told hint brace }
{
    match hint {
        Some(hint) => { if is_of_brace(hint) { brace } else { None } }
        None => None,
    }
}

fn is_of_brace(hint: Hint) -> bool
    ensures { result ≡ is_of_brace hint }
{
    match hint {
        Hint::FunctionInside | Hint::Close => true,
        _ => false,
    }
}

// What was tried behind these tokens: behind nearly as many as a text may have bytes nothing is.
fn tried_at(alloc: Global, front: Items<Token>, around: Around) -> Result<Tried, Memory>
    ensures { IfOk result (λ tried. IsTried front around tried.told.items tried.mends.items tried.is_extra) }
{
    let mut front = front;
    if front.len() + 3 > FILE_BYTES {
        return Ok(Tried {
            told: Vec::new(alloc),
            mends: Vec::new(alloc),
            is_extra: false,
        });
    }
    let told = followers(alloc, &mut front, &EVERY)?;
    let mends = menders(alloc, &mut front, around, told.as_slice())?;
    let is_extra = goes_on_behind(alloc, &mut front, around)?;
    Ok(Tried {
        told,
        mends,
        is_extra,
    })
}

fn add_advice(
    alloc: Global,
    out: &mut Vec<u8>,
    hint: Option<Hint>,
    tried: &Tried,
) -> Result<(), Memory>
    ensures { OnOk result (out.new.items ≡ out.old.items ++ advice_told hint tried.now.told.items tried.now.mends.items) }
{
    let may = phrases(alloc, tried.told.as_slice())?;
    add_may_line(out, may.as_slice())?;
    let missing = phrases(alloc, tried.mends.as_slice())?;
    add_hint_line(out, hint, missing.as_slice())?;
    Ok(())
}

fn add_may_line(out: &mut Vec<u8>, told: &[Phrase]) -> Result<(), AllocError>
    ensures { OnOk result (out.new.items ≡ out.old.items ++ may_line told.now) }
{
    if told.is_empty() {
        return Ok(());
    }
    add_may_words(out, told)
}

#[tactic(auto, unfolding(crate::specs::Advice::may_words))]
fn add_may_words(out: &mut Vec<u8>, told: &[Phrase]) -> Result<(), AllocError>
    ensures { OnOk result (out.new.items ≡ out.old.items ++ may_words told.now) }
{
    out.extend_from_slice(b"here may stand: ")?;
    add_listed(out, told)?;
    out.push(b'\n')?;
    Ok(())
}

fn add_hint_line(
    out: &mut Vec<u8>,
    hint: Option<Hint>,
    missing: &[Phrase],
) -> Result<(), AllocError>
    ensures { OnOk result (out.new.items ≡ out.old.items ++ hint_line hint missing.now) }
{
    match hint {
        None => Ok(()),
        Some(hint) => add_hint(out, hint, missing),
    }
}

fn add_hint(out: &mut Vec<u8>, hint: Hint, missing: &[Phrase]) -> Result<(), AllocError>
    ensures { OnOk result (out.new.items ≡ out.old.items ++ told_hint hint missing.now) }
{
    if hint == Hint::Missing {
        add_missing(out, missing)
    } else if hint == Hint::MaxAlone {
        add_alone(
            out,
            Word::Max,
            TURNS,
            b"; a loop may end sooner by its condition",
        )
    } else if hint == Hint::AdvanceAlone {
        add_alone(out, Word::Advance, ADVANCE, b"")
    } else {
        add_words(out, hint_words(hint))
    }
}

// That a number stands alone behind a word, its range, and what else is told.
fn add_alone(out: &mut Vec<u8>, word: Word, greatest: u32, more: &[u8]) -> Result<(), AllocError>
    ensures { OnOk result (out.new.items ≡ out.old.items ++ alone_line word greatest more.now) }
{
    out.extend_from_slice(b"hint: ")?;
    add_alone_words(out, word, greatest)?;
    out.extend_from_slice(b": no sign, no name and no expression")?;
    out.extend_from_slice(more)?;
    out.push(b'\n')?;
    Ok(())
}

#[tactic(auto, unfolding(crate::specs::Advice::alone_words))]
fn add_alone_words(out: &mut Vec<u8>, word: Word, greatest: u32) -> Result<(), AllocError>
    ensures { OnOk result (out.new.items ≡ out.old.items ++ alone_words word greatest) }
{
    out.extend_from_slice(b"behind `")?;
    out.extend_from_slice(word_spelling(word))?;
    out.extend_from_slice(b"` stands a number alone, from 1 to ")?;
    add_number(out, u64::from(greatest))
}

fn add_words(out: &mut Vec<u8>, words: &[u8]) -> Result<(), AllocError>
    ensures { OnOk result (out.new.items ≡ out.old.items ++ words_line words.now) }
{
    out.extend_from_slice(b"hint: ")?;
    out.extend_from_slice(words)?;
    out.push(b'\n')?;
    Ok(())
}

fn add_missing(out: &mut Vec<u8>, missing: &[Phrase]) -> Result<(), AllocError>
    ensures { OnOk result (out.new.items ≡ out.old.items ++ missing_words missing.now) }
{
    out.extend_from_slice(b"hint: ")?;
    add_listed(out, missing)?;
    out.extend_from_slice(b" is missing before this\n")?;
    Ok(())
}
