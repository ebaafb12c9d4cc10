//! Notes that are looked for.
ghost use Rattle.std.specs.Prelude.{◌≡◌};
ghost use Rattle.psy_assert.specs.Spans.{first_date, last_date};
ghost use Rattle.psy_assert.specs.Verdicts.{first_by, is_later, is_message, is_met, is_sought, is_stop, meets, newest, tells};

use crate::terms::{Assertion, Claim, Relation};
use psy_log::Note;

/// The first note that decides an assertion: one that breaks it, or the message that is asked for.
pub fn first_sought<'a>(assertion: &Assertion, notes: &[Note<'a>]) -> Option<Note<'a>>
    ensures { result ≡ first_by assertion.now.claim (first_date assertion.now.span) (last_date assertion.now.span) notes.now }
{
    for note in notes {
        if is_sought(assertion, note) {
            return Some(*note);
        }
    }
    None
}

/// The newest value of a variable that was told by a date.
pub fn newest<'a>(variable: &[u8], by: u64, notes: &[Note<'a>]) -> Option<Note<'a>>
    ensures { result ≡ newest variable.now by notes.now }
{
    let mut found = None;
    for note in notes {
        if tells(variable, by, note) {
            found = Some(*note);
        }
    }
    found
}

// Whether a note decides an assertion.
fn is_sought(assertion: &Assertion, note: &Note) -> bool
    ensures { result ≡ is_sought assertion.now note.now }
{
    let from = assertion.span.first();
    let to = assertion.span.last();
    match assertion.claim {
        Claim::Values {
            variable,
            relation,
            value,
        } => is_later(variable, from, to, note) && !is_met(relation, value, note),
        Claim::NoStop => is_stop(from, to, note),
        Claim::NoMessage { stream } | Claim::SomeMessage { stream } => {
            is_message(stream, from, to, note)
        }
    }
}

// Whether a note tells a value of the variable behind a date and up to another.
fn is_later(variable: &[u8], from: u64, to: u64, note: &Note) -> bool
    ensures { result ≡ is_later variable.now from to note.now }
{
    match *note {
        Note::Value {
            date,
            variable: name,
            ..
        } => variable == name && from < date && date <= to,
        _ => false,
    }
}

// Whether a note tells a value of the variable by a date.
fn tells(variable: &[u8], by: u64, note: &Note) -> bool
    ensures { result ≡ tells variable.now by note.now }
{
    match *note {
        Note::Value {
            date,
            variable: name,
            ..
        } => variable == name && date <= by,
        _ => false,
    }
}

// Whether a note tells a stop between two dates.
fn is_stop(from: u64, to: u64, note: &Note) -> bool
    ensures { result ≡ is_stop from to note.now }
{
    match *note {
        Note::StopOverrun { date, .. } | Note::StopTrap { date, .. } => from <= date && date <= to,
        _ => false,
    }
}

// Whether a note tells a message of the stream between two dates.
fn is_message(stream: &[u8], from: u64, to: u64, note: &Note) -> bool
    ensures { result ≡ is_message stream.now from to note.now }
{
    match *note {
        Note::Message {
            date,
            stream: name,
            ..
        } => stream == name && from <= date && date <= to,
        _ => false,
    }
}

/// Whether the value that a note tells stands so to this one.
pub fn is_met(relation: Relation, value: i32, note: &Note) -> bool
    ensures { result ≡ is_met relation value note.now }
{
    match *note {
        Note::Value { value: told, .. } => meets(relation, told, value),
        _ => true,
    }
}

/// Whether a value stands so to another.
pub fn meets(relation: Relation, value: i32, other: i32) -> bool
    ensures { result ≡ meets relation value other }
{
    match relation {
        Relation::Equal => value == other,
        Relation::Unequal => value != other,
        Relation::Less => value < other,
        Relation::AtMost => value <= other,
        Relation::Greater => value > other,
        Relation::AtLeast => value >= other,
    }
}
