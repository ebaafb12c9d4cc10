//! What the words at the front of a text say at the places of a form.
ghost use Rattle.std.specs.Prelude.{◌≡◌, ◌≢◌, ℕ, ◌+◌, ◌<◌, ◌≤◌, IsFalse, List, ◌∷◌, ◌++◌, IfSome, MatchOption, None, OnSome, length, map};
ghost use Rattle.std.specs.List.{prefix_len};
ghost use Rattle.arrayvec.specs.ArrayVec.{array_vec_len};
ghost use Rattle.psy_tree.specs.Lexemes.{Each};
ghost use Rattle.psy_log.specs.Table.{Said, place_of, spell, words};
ghost use Rattle.psy_notes.specs.Notes.{Fills};
ghost use Rattle.psy_notes.specs.Reading.{end_of, is_plain, said_of, ArePlain, FillsOne};

use crate::content::{Content, read_content};
use arrayvec::ArrayVec;
use psy_log::Field;

/// The most places of a line.
pub const PLACES: usize = 7;

/// What was said at the places of a line, and what follows the line.
#[derive(Drop)]
pub struct Filled<'a> {
    pub contents: ArrayVec<Content<'a>, PLACES>,
    pub rest: &'a [u8],
}

/// What the line at the front of a text says at these places. None exactly where no line that fills them stands there.
pub fn read_filled<'a>(fields: &[Field], text: &'a [u8]) -> Option<Filled<'a>>
    requires few { length fields.now ≤ PLACES }
    requires plain { ArePlain (map place_of fields.now) }
    ensures some { IfSome result (λ filled. Fills (map place_of fields.now) (map said_of filled.contents.items)
        × (text.now ≡ spell (words (map place_of fields.now) (map said_of filled.contents.items)) filled.rest.now)) }
    ensures none { result ≡ None → (said : List Said) (more : List ℕ) → Fills (map place_of fields.now) said
        → text.now ≢ spell (words (map place_of fields.now) said) more }
{
    let mut contents = ArrayVec::new();
    let mut left = fields;
    let mut rest = text;
    'filling: while let Some((field, next)) = left.split_first() {
        let (word, behind) = first_word(rest, end_before(next))?;
        fill(*field, word, &mut contents)?;
        left = next;
        rest = behind;
    }
    Some(Filled { contents, rest })
}

// What stands behind the word of a place: a blank before another place, and else a line feed.
fn end_before(next: &[Field]) -> u8
    ensures { result ≡ end_of (map place_of next.now) }
{
    if next.is_empty() { b'\n' } else { b' ' }
}

// The bytes before the first blank or line feed, where that is this one, and what follows it.
fn first_word(text: &[u8], end: u8) -> Option<(&[u8], &[u8])>
    requires { IsFalse (is_plain end) }
    ensures some { IfSome result (λ r. Each is_plain r.0.now × (text.now ≡ r.0.now ++ end ∷ r.1.now)) }
    ensures none { result ≡ None → (word more : List ℕ) → Each is_plain word → text.now ≢ word ++ end ∷ more }
{
    let (word, rest) = text.split_at(word_len(text));
    Some((word, behind(rest, &[end])?))
}

// What stands behind these bytes at the front of a text.
fn behind<'a>(text: &'a [u8], bytes: &[u8]) -> Option<&'a [u8]>
    ensures { MatchOption result ((rest : List ℕ) → text.now ≢ bytes.now ++ rest) (λ rest. text.now ≡ bytes.now ++ rest.now) }
{
    text.strip_prefix(bytes)
}

// How many bytes stand before the first blank or line feed.
fn word_len(text: &[u8]) -> usize
    ensures value { result ≡ prefix_len is_plain text.now }
    ensures within { result ≤ length text.now }
{
    text.iter().take_while(|b| is_plain(**b)).count()
}

fn is_plain(byte: u8) -> bool
    ensures { result ≡ is_plain byte }
{
    byte != b' ' && byte != b'\n'
}

// Adds what a word says at a place. None where it says nothing that may stand there.
fn fill<'a>(
    field: Field,
    word: &'a [u8],
    contents: &mut ArrayVec<Content<'a>, PLACES>,
) -> Option<()>
    requires { array_vec_len contents.old < PLACES }
    ensures some { OnSome result (FillsOne (place_of field) word.now (map said_of contents.old.items) (map said_of contents.new.items)) }
    ensures none { result ≡ None → (old new : List Said) → FillsOne (place_of field) word.now old new → ⊥ }
    ensures room { array_vec_len contents.new ≤ array_vec_len contents.old + 1 }
{
    match field {
        Field::Word(own) => { if word == own { Some(()) } else { None } }
        Field::Any(sort) => {
            contents.push(read_content(sort, word)?);
            Some(())
        }
    }
}
