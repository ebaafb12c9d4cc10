//! What some notes tell, summed up.
ghost use Rattle.std.specs.Prelude.{◌≡◌, ◌||◌, true, Some};
ghost use Rattle.psy_assert.specs.Sums.{are_met, has_sought, is_by_ends, later, passes, value_of, wanted_of};
ghost use Rattle.psy_assert.specs.declared.sum.Sought.{Sought as Wanted};

use crate::terms::{Claim, Relation};
use psy_log::Note;

/// The least and the greatest of some values.
#[derive(Clone, Copy, Debug)]
pub struct Extent {
    pub least: i32,
    pub most: i32,
}

/// The last of some notes: how many stand before it in the log, and its value.
#[derive(Clone, Copy, Debug)]
pub struct Newest {
    pub place: usize,
    pub value: i32,
}

/// What the notes between two cuts tell: their extent, and the last note of the subject, where there is any.
#[derive(Clone, Copy, Debug)]
pub struct Sum {
    pub extent: Option<Extent>,
    pub newest: Option<Newest>,
}

/// What an assertion looks for.
#[derive(Clone, Copy, Debug)]
pub enum Sought {
    /// Any note.
    Any,
    /// A value that doesn't stand so to this one.
    Failing { relation: Relation, value: i32 },
}

/// What an assertion looks for between its cuts.
pub fn wanted_of(claim: &Claim) -> Sought
    ensures { result ≡ wanted_of claim.now }
{
    match *claim {
        Claim::Values {
            relation,
            value,
            ..
        } => Sought::Failing { relation, value },
        _ => Sought::Any,
    }
}

/// Whether the least and the greatest value tell whether it is among some.
pub fn is_by_ends(sought: Sought) -> bool
    ensures { result ≡ is_by_ends sought }
{
    match sought {
        Sought::Any => true,
        Sought::Failing { relation, .. } => !matches!(relation, Relation::Unequal),
    }
}

/// The value that a note tells; 0 where it tells none.
pub fn value_of(note: &Note) -> i32
    ensures { result ≡ value_of note.now }
{
    match *note {
        Note::Value { value, .. } => value,
        _ => 0,
    }
}

/// The extent of no values, or of some, with one more.
pub fn with_value(extent: Option<Extent>, value: i32) -> Extent
    ensures { (wanted : Wanted) → is_by_ends wanted ≡ true → has_sought wanted (Some result) ≡ (has_sought wanted extent || passes wanted value) }
{
    match extent {
        Some(extent) => Extent {
            least: extent.least.min(value),
            most: extent.most.max(value),
        },
        None => Extent {
            least: value,
            most: value,
        },
    }
}

/// The later one of two.
pub fn later(one: Option<Newest>, other: Option<Newest>) -> Option<Newest>
    ensures { result ≡ later one other }
{
    match (one, other) {
        (Some(first), Some(second)) if first.place < second.place => Some(second),
        (Some(first), _) => Some(first),
        (None, second) => second,
    }
}

/// Whether each value within an extent stands so to this one, which only some relations tell.
fn are_met(relation: Relation, value: i32, extent: &Extent) -> bool
    ensures { result ≡ are_met relation value extent.now }
{
    match relation {
        Relation::Equal => value <= extent.least && extent.most <= value,
        Relation::Less => extent.most < value,
        Relation::AtMost => extent.most <= value,
        Relation::Greater => extent.least > value,
        Relation::AtLeast => extent.least >= value,
        Relation::Unequal => true,
    }
}

/// Whether what is looked for is among the values of an extent.
pub fn has_sought(sought: Sought, extent: Option<Extent>) -> bool
    ensures { result ≡ has_sought sought extent }
{
    match extent {
        None => false,
        Some(extent) => match sought {
            Sought::Any => true,
            Sought::Failing { relation, value } => !are_met(relation, value, &extent),
        },
    }
}
