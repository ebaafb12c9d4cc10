//! Judges assertions.
ghost use Rattle.std.specs.Prelude.{◌≡◌};
ghost use Rattle.psy_assert.specs.Verdicts.{broken_by, failing, kept_by, of_later, of_values, verdict_of};

use crate::sought::{first_sought, is_met, newest};
use crate::terms::{Assertion, Claim, Relation};
use crate::verdict::Verdict;
use psy_log::Note;

/// What comes of an assertion over these notes. It takes no memory.
pub fn judge<'a>(assertion: &Assertion, notes: &[Note<'a>]) -> Verdict<'a>
    ensures { result ≡ verdict_of assertion.now notes.now }
{
    match assertion.claim {
        Claim::Values {
            variable,
            relation,
            value,
        } => of_values(
            failing(
                relation,
                value,
                newest(variable, assertion.span.first(), notes),
            ),
            first_sought(assertion, notes),
            newest(variable, assertion.span.last(), notes),
        ),
        Claim::NoStop => broken_by(first_sought(assertion, notes)),
        Claim::NoMessage { .. } => broken_by(first_sought(assertion, notes)),
        Claim::SomeMessage { .. } => kept_by(first_sought(assertion, notes)),
    }
}

// Broken by a note, where there is one.
fn broken_by(note: Option<Note<'_>>) -> Verdict<'_>
    ensures { result ≡ broken_by note.entry }
{
    match note {
        Some(note) => Verdict::Broken { note },
        None => Verdict::Kept,
    }
}

// Kept by a note, where there is one.
fn kept_by(note: Option<Note<'_>>) -> Verdict<'_>
    ensures { result ≡ kept_by note.entry }
{
    match note {
        Some(_) => Verdict::Kept,
        None => Verdict::Missing,
    }
}

// What comes of values: broken by the first one, or else by a later one; kept where there is any at all.
fn of_values<'a>(
    first: Option<Note<'a>>,
    later: Option<Note<'a>>,
    last: Option<Note<'a>>,
) -> Verdict<'a>
    ensures { result ≡ of_values first.entry later.entry last.entry }
{
    match first {
        Some(note) => Verdict::Broken { note },
        None => of_later(later, last),
    }
}

// The same where the first one is as it should be.
fn of_later<'a>(later: Option<Note<'a>>, last: Option<Note<'a>>) -> Verdict<'a>
    ensures { result ≡ of_later later.entry last.entry }
{
    match later {
        Some(note) => Verdict::Broken { note },
        None => kept_by(last),
    }
}

// A note, where its value doesn't stand so.
fn failing(relation: Relation, value: i32, note: Option<Note<'_>>) -> Option<Note<'_>>
    ensures { result ≡ failing relation value note.entry }
{
    let note = note?;
    if is_met(relation, value, &note) {
        None
    } else {
        Some(note)
    }
}
