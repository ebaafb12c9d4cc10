//! Cuts between the dates of what notes and assertions speak of.
ghost use Rattle.std.specs.Prelude.{◌≡◌};
ghost use Rattle.psy_assert.specs.Cuts.{first_cut, is_before, is_beside, last_cut, note_cut, subject_of, values_of};

use crate::terms::{Assertion, Claim};
use psy_log::Note;

/// What notes and assertions speak of.
#[derive(Clone, Copy, Debug, PartialEq, Eq, PartialOrd, Ord)]
pub enum Subject<'a> {
    /// Stops, of any agent.
    Stops,
    /// The messages of a stream.
    Messages { stream: &'a [u8] },
    /// The values of a variable.
    Values { variable: &'a [u8] },
    /// One value of a variable.
    Value { variable: &'a [u8], value: i32 },
}

/// A cut between the dates of a subject: before a date, or behind it. Cuts are in order by subject, and then by date.
#[derive(Clone, Copy, Debug, PartialEq, Eq, PartialOrd, Ord)]
pub struct Cut<'a> {
    pub subject: Subject<'a>,
    pub date: u64,
    pub behind: bool,
}

impl<'a> Cut<'a> {
    /// Whether it comes before another one.
    pub fn is_before(&self, other: &Cut) -> bool
        ensures { result ≡ is_before self.now other.now }
    {
        self.cmp(other).is_lt()
    }

    /// Whether another one has its subject.
    pub fn is_beside(&self, other: &Cut) -> bool
        ensures { result ≡ is_beside self.now other.now }
    {
        self.subject.cmp(&other.subject).is_eq()
    }
}

// What a claim speaks of, by name, or by name and value.
fn subject_of<'a>(by_value: bool, claim: &Claim<'a>) -> Subject<'a>
    ensures { result ≡ subject_of by_value claim.now }
{
    match *claim {
        Claim::Values {
            variable,
            value,
            ..
        } => values_of(by_value, variable, value),
        Claim::NoStop => Subject::Stops,
        Claim::NoMessage { stream } | Claim::SomeMessage { stream } => Subject::Messages { stream },
    }
}

// Values of a variable: this one, or all.
fn values_of(by_value: bool, variable: &[u8], value: i32) -> Subject<'_>
    ensures { result ≡ values_of by_value variable.entry value }
{
    if by_value {
        Subject::Value { variable, value }
    } else {
        Subject::Values { variable }
    }
}

/// The cut behind which the notes stand that may decide an assertion: a value stands at its first date, so later ones are looked for behind it.
pub fn first_cut<'a>(by_value: bool, assertion: &Assertion<'a>) -> Cut<'a>
    ensures { result ≡ first_cut by_value assertion.now }
{
    Cut {
        subject: subject_of(by_value, &assertion.claim),
        date: assertion.span.first(),
        behind: matches!(assertion.claim, Claim::Values { .. }),
    }
}

/// The cut behind an assertion's last date.
pub fn last_cut<'a>(by_value: bool, assertion: &Assertion<'a>) -> Cut<'a>
    ensures { result ≡ last_cut by_value assertion.now }
{
    Cut {
        subject: subject_of(by_value, &assertion.claim),
        date: assertion.span.last(),
        behind: true,
    }
}

/// The cut behind the date of a note, where an assertion may speak of it.
pub fn note_cut<'a>(by_value: bool, note: &Note<'a>) -> Option<Cut<'a>>
    ensures { result ≡ note_cut by_value note.now }
{
    match *note {
        Note::Value {
            date,
            variable,
            value,
        } => Some(Cut {
            subject: values_of(by_value, variable, value),
            date,
            behind: true,
        }),
        Note::Message { date, stream, .. } => Some(Cut {
            subject: Subject::Messages { stream },
            date,
            behind: true,
        }),
        Note::StopOverrun { date, .. } | Note::StopTrap { date, .. } => Some(Cut {
            subject: Subject::Stops,
            date,
            behind: true,
        }),
        _ => None,
    }
}
