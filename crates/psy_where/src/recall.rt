//! Refusals that tell a place in a text.
ghost use Rattle.std.specs.Prelude.{◌≡◌, List, ℕ, IfOk, IfSome};
ghost use Rattle.psy_log.specs.Forms.{says};
ghost use Rattle.psy_where.specs.declared.fault.WhereFault.{WhereFault};
ghost use Rattle.psy_where.specs.declared.recall.Refusal.{Refusal as refusal_of};
ghost use Rattle.psy_where.specs.Refusals.{IsNoRefusal, IsRefusal, Refuses, refusal_in, what_of};

use crate::fault::WhereFault;
use crate::sentence::sentence;
use crate::with_feed::with_feed;
use psy_log::Note;
use psy_notes::laws::one_line;
use psy_notes::read_line;
use std::alloc::Global;

/// What psyc refused: the tokens, the grammar or the rules of a program, or a line of inputs or of a script.
#[derive(Clone, Copy, Debug, PartialEq, Eq)]
pub enum What {
    Lex,
    Parse,
    Rule,
    Inputs,
    Script,
}

/// A refusal: what was refused, the number of its cause, and the byte, token or line.
#[derive(Clone, Copy, Debug, PartialEq, Eq)]
pub struct Refusal {
    pub what: What,
    pub number: u32,
    pub at: u32,
}

// A refusal, and what it means.
#[derive(Clone, Copy)]
pub struct Told {
    pub refusal: Refusal,
    pub sentence: &'static [u8],
}

/// The refusal that a line is. `NoRefusal` only where it is none; the only other error is want of memory.
pub fn read_refusal(alloc: Global, line: &[u8]) -> Result<Told, WhereFault>
    ensures told { IfOk result (λ told. IsRefusal line.now told.refusal told.sentence.now) }
    ensures refusal { result ≡ Err WhereFault.NoRefusal → IsNoRefusal line.now }
    ensures beyond { result ≡ Err WhereFault.Beyond → ⊥ }
{
    one_line();
    let whole = with_feed(alloc, line)?;
    let Some(note) = read_line(whole.as_slice()) else {
        return Err(WhereFault::NoRefusal);
    };
    let Some(told) = told_of(note) else {
        return Err(WhereFault::NoRefusal);
    };
    Ok(told)
}

/// The refusal that a note tells, where psyc writes one of that number. None exactly where it tells none.
pub fn told_of(note: Note<'_>) -> Option<Told>
    ensures some { IfSome result (λ told. Refuses (says note.entry) told.refusal told.sentence.now) }
    ensures none { result ≡ None → (refusal : refusal_of) (sentence : List ℕ) → Refuses (says note.entry) refusal sentence → ⊥ }
{
    let refusal = refusal_of(note)?;
    let sentence = sentence(refusal.what, refusal.number)?;
    Some(Told { refusal, sentence })
}

// The refusal that a note tells, of any number.
fn refusal_of(note: Note<'_>) -> Option<Refusal>
    ensures { result ≡ refusal_in (says note.entry).0 (says note.entry).1 }
{
    match note {
        Note::Refused {
            what,
            number,
            at: Some(at),
        } => {
            let what = what_of(what)?;
            Some(Refusal { what, number, at })
        }
        _ => None,
    }
}

// What has this word.
fn what_of(word: &[u8]) -> Option<What>
    ensures { result ≡ what_of word.now }
{
    if word == b"lex".as_slice() {
        Some(What::Lex)
    } else if word == b"parse".as_slice() {
        Some(What::Parse)
    } else if word == b"rule".as_slice() {
        Some(What::Rule)
    } else if word == b"inputs".as_slice() {
        Some(What::Inputs)
    } else if word == b"script".as_slice() {
        Some(What::Script)
    } else {
        None
    }
}
