//! What is told below the mark of a refusal.
ghost use Rattle.std.specs.Prelude.{◌≡◌, ℕ, ◌≤◌, ◌++◌, IfOk, length};
ghost use Rattle.psy_slip.specs.Looks.{file_hint};
ghost use Rattle.psy_base.specs.declared.limits.TheConstants.{FILE_BYTES};
ghost use Rattle.psy_where.specs.declared.fault.WhereFault.{WhereFault};
ghost use Rattle.psy_where.specs.Helps.{IsAdviceFor, IsBreachOf, IsHelp, IsSyntaxHelp, brace_help, depth_help, hint_line, lex_words, line_help, nested_help};
ghost use Rattle.psy_where.specs.Places.{IsTokenPlace};
ghost use Rattle.psy_where.specs.Refusals.{IsPlaceOf};

use crate::brace::brace_help;
use crate::byte::{ByteSlip, byte_words, closes_first, slip_of};
use crate::fault::WhereFault;
use crate::indent::{Pair, first_pair};
use crate::recall::{Refusal, What};
use psy_base::Memory;
use psy_breach::breach_hint;
use psy_expect::{Remark, advice};
use psy_slip::{File, file_hint, slip_line};
use psy_token::lex;
use std::alloc::{AllocError, Global};

/// What is told below the mark of a refusal, in a text of at most 262,144 bytes, by the bytes before the place, those from it on, and those of them that are
/// of its line: of a token with which no program goes on, what may stand in its place; of bytes that aren't cut into tokens, why; of a rule that is broken,
/// what to do; of a line of inputs or of a script, the word at fault; and that the file looks like another.
pub fn help(
    alloc: Global,
    text: &[u8],
    earlier: &[u8],
    back: &[u8],
    line: &[u8],
    refusal: Refusal,
) -> Result<Vec<u8>, WhereFault>
    requires { length text.now ≤ FILE_BYTES }
    ensures help { IfOk result (λ help. IsHelp text.now earlier.now back.now line.now refusal help.items) }
    ensures beyond { result ≡ Err WhereFault.Beyond → (place : ℕ) → IsPlaceOf refusal.what text.now refusal.at place → ⊥ }
    ensures refusal { result ≡ Err WhereFault.NoRefusal → ⊥ }
{
    let number = refusal.number;
    match refusal.what {
        What::Lex => Ok(lex_help(alloc, text, number, earlier, back)?),
        What::Parse if number == 1 => syntax_help(alloc, text, back, refusal.at as usize),
        What::Parse => Ok(depth_help(alloc)?),
        What::Rule => breach_of(alloc, text, number, refusal.at as usize),
        What::Inputs => Ok(line_help(alloc, File::Inputs, number, text, earlier, line)?),
        What::Script => Ok(line_help(alloc, File::Script, number, text, earlier, line)?),
    }
}

// What is told of bytes that can't be cut into tokens.
fn lex_help(
    alloc: Global,
    text: &[u8],
    number: u32,
    front: &[u8],
    back: &[u8],
) -> Result<Vec<u8>, Memory>
    ensures { IfOk result (λ help. help.items ≡ hint_line (lex_words number front.now back.now) ++ file_hint File.Program text.now) }
{
    let help = hint_line(alloc, lex_words(number, front, back))?;
    with_hint(alloc, help, File::Program, text)
}

fn lex_words(number: u32, front: &[u8], back: &[u8]) -> &'static [u8]
    ensures { result.now ≡ lex_words number front.now back.now }
{
    match number {
        1 => byte_words(slip_of(front, back)),
        2 => b"choose a shorter name",
        3 =>
            b"a number of the text is at most 2147483647; a greater value is computed, in 64 bits as in `int64(1) << 40`",
        _ => b"a comment that begins with `/*` ends with `*/`",
    }
}

// `hint: ..`
fn hint_line(alloc: Global, words: &[u8]) -> Result<Vec<u8>, AllocError>
    ensures { IfOk result (λ line. line.items ≡ hint_line words.now) }
{
    let mut line = Vec::from_slice(alloc, b"hint: ")?;
    line.extend_from_slice(words)?;
    line.push(b'\n')?;
    Ok(line)
}

// What is told of a text that is nested too deep.
fn depth_help(alloc: Global) -> Result<Vec<u8>, AllocError>
    ensures { IfOk result (λ help. help.items ≡ depth_help) }
{
    hint_line(
        alloc,
        b"split it: compute a part of the expression in a statement before, or put a part of the statements into a function",
    )
}

// What is told of a line in a file of inputs or in a script.
fn line_help(
    alloc: Global,
    file: File,
    number: u32,
    text: &[u8],
    earlier: &[u8],
    line: &[u8],
) -> Result<Vec<u8>, Memory>
    ensures { IfOk result (λ help. help.items ≡ line_help file number text.now earlier.now line.now) }
{
    let help = slip_line(alloc, file, number, earlier, line)?;
    with_hint(alloc, help, file, text)
}

// What is told of the token of this number, with which no program goes on, and which stands at the front of these bytes.
fn syntax_help(alloc: Global, text: &[u8], back: &[u8], at: usize) -> Result<Vec<u8>, WhereFault>
    requires { length text.now ≤ FILE_BYTES }
    ensures help { IfOk result (λ help. IsSyntaxHelp text.now back.now at help.items) }
    ensures beyond { result ≡ Err WhereFault.Beyond → (place : ℕ) → IsTokenPlace text.now at place → ⊥ }
    ensures refusal { result ≡ Err WhereFault.NoRefusal → ⊥ }
{
    match advice_for(alloc, text, at) {
        Ok(advice) => Ok(with_hints(alloc, advice, back, text)?),
        Err(fault) => Err(fault),
    }
}

// Advice, and behind it that a comment was closed before these bytes, and what the file looks like.
fn with_hints(
    alloc: Global,
    mut advice: Vec<u8>,
    back: &[u8],
    text: &[u8],
) -> Result<Vec<u8>, Memory>
    ensures { IfOk result (λ help. help.items ≡ advice.items ++ nested_help back.now ++ file_hint File.Program text.now) }
{
    let nested = nested_help(alloc, back)?;
    advice.extend_from_slice(nested.as_slice())?;
    with_hint(alloc, advice, File::Program, text)
}

// That a comment was closed before these bytes, where it was.
fn nested_help(alloc: Global, back: &[u8]) -> Result<Vec<u8>, AllocError>
    ensures { IfOk result (λ help. help.items ≡ nested_help back.now) }
{
    if closes_first(back) {
        hint_line(alloc, byte_words(ByteSlip::Nested))
    } else {
        Ok(Vec::new(alloc))
    }
}

// Help, and behind it what the file looks like, which should be of this sort.
fn with_hint(alloc: Global, mut help: Vec<u8>, file: File, text: &[u8]) -> Result<Vec<u8>, Memory>
    ensures { IfOk result (λ whole. whole.items ≡ help.items ++ file_hint file text.now) }
{
    let hint = file_hint(alloc, file, text)?;
    help.extend_from_slice(hint.as_slice())?;
    Ok(help)
}

// Advice for the token of this number, and what is told of braces.
fn advice_for(alloc: Global, text: &[u8], at: usize) -> Result<Vec<u8>, WhereFault>
    requires { length text.now ≤ FILE_BYTES }
    ensures advice { IfOk result (λ help. IsAdviceFor text.now at help.items) }
    ensures beyond { result ≡ Err WhereFault.Beyond → (place : ℕ) → IsTokenPlace text.now at place → ⊥ }
    ensures refusal { result ≡ Err WhereFault.NoRefusal → ⊥ }
{
    let tokens = lex(alloc, text)?;
    if tokens.len() < at {
        return Err(WhereFault::Beyond);
    }
    let pair = first_pair(alloc, text, tokens.as_slice(), at)?;
    let remark = advice(alloc, tokens, at)?;
    Ok(with_braces(alloc, remark, text, pair)?)
}

// Advice, and behind it what is told of braces.
fn with_braces(
    alloc: Global,
    remark: Remark,
    text: &[u8],
    pair: Option<Pair>,
) -> Result<Vec<u8>, AllocError>
    requires { length text.now ≤ FILE_BYTES }
    ensures { IfOk result (λ help. help.items ≡ remark.text.items ++ brace_help text.now remark.brace pair) }
{
    let mut help = remark.text;
    let braces = brace_help(alloc, text, remark.brace, pair)?;
    help.extend_from_slice(braces.as_slice())?;
    Ok(help)
}

// What is told of the rule of this number, which is broken at the token of that number.
fn breach_of(alloc: Global, text: &[u8], rule: u32, at: usize) -> Result<Vec<u8>, WhereFault>
    requires { length text.now ≤ FILE_BYTES }
    ensures breach { IfOk result (λ help. IsBreachOf text.now rule at help.items) }
    ensures beyond { result ≡ Err WhereFault.Beyond → (place : ℕ) → IsTokenPlace text.now at place → ⊥ }
    ensures refusal { result ≡ Err WhereFault.NoRefusal → ⊥ }
{
    let tokens = lex(alloc, text)?;
    if tokens.len() < at {
        return Err(WhereFault::Beyond);
    }
    Ok(breach_hint(alloc, text, tokens.as_slice(), rule, at)?)
}
