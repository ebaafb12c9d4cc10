//! What must be known of notes before their values are drawn.

ghost use Rattle.std.specs.Prelude.{◌≡◌, ◌<◌, ◌++◌, ◌==◌, ◌&&◌, [], ◌∷◌, ℕ, None, IfOk, IfSome, List, cond, map, string_bytes};
ghost use Rattle.std.specs.List.{list_all};
ghost use Rattle.psy_log.specs.declared.note.Note.{Note};
ghost use Rattle.psy_draw.specs.Columns.{Dated};
ghost use Rattle.psy_draw.specs.Dates.{last_date};
ghost use Rattle.psy_draw.specs.Firsts.{agree_on};
ghost use Rattle.psy_draw.specs.Gathering.{AreFirst, Counts, asks_variable};
ghost use Rattle.psy_draw.specs.Lanes.{may_have_lane};
ghost use Rattle.psy_draw.specs.Listing.{Lists};
ghost use Rattle.psy_draw.specs.Places.{window_end};
ghost use Rattle.psy_draw.specs.Scales.{IsScaleOf};

use crate::asked::asked_variables;
use crate::choice::is_asked;
use crate::dates::date_of;
use crate::firsts::Firsts;
use crate::scale::Scale;
use crate::window::Window;
use psy_base::Memory;
use psy_log::Note;
use std::alloc::Global;

/// What must be known before the values are drawn: the last date, how many lanes there are at most, and of each variable that was asked for the
/// value at the first date. It takes in notes one by one.
#[derive(Drop)]
pub struct Outset<'a> {
    pub last: u64,
    pub lanes: usize,
    pub firsts: Firsts<'a>,
}

impl<'a> Outset<'a> {
    /// Before any note of a run with this summary.
    pub fn of(alloc: Global, summary: &[Note<'a>], names: &[String]) -> Result<Outset<'a>, Memory>
        ensures names { IfOk result (λ outset. Lists (asks_variable (map string_bytes names.now)) summary.now outset.firsts.names) }
        ensures none { IfOk result (λ outset. (from : ℕ) → Counts (map string_bytes names.now) from [] outset) }
    {
        let variables = asked_variables(alloc, summary, names)?;
        Ok(Outset {
            last: 0,
            lanes: 0,
            firsts: Firsts::of(alloc, variables)?,
        })
    }

    /// Takes in a note, of a picture that begins at this date.
    pub fn add(&mut self, note: &Note, names: &[String], from: u32)
        ensures names { self.new.firsts.names ≡ self.old.firsts.names }
        ensures counts { (notes : List Note) → Counts (map string_bytes names.now) from notes self.old
            → Counts (map string_bytes names.now) from (notes ++ note.now ∷ []) self.new }
    {
        self.last = date_of(note).max(self.last);
        self.lanes = self.lanes.saturating_add(lanes_of(note, names));
        self.firsts.add(note, from);
    }

    /// The scale of a picture of a window, where a date of the run lies in it.
    pub fn scale(&self, window: Window) -> Option<Scale>
        ensures scale { IfSome result (λ scale. (names : List (List ℕ)) (from : ℕ) (notes : List Note) → Counts names from notes self.now
            → IsScaleOf window names notes scale) }
        ensures none { result ≡ None → (names : List (List ℕ)) (from : ℕ) (notes : List Note) → Counts names from notes self.now
            → window_end window (last_date notes) < window.from }
    {
        Scale::new(window, self.last, self.lanes)
    }

    /// The values at the first date once more, of a run with this summary.
    pub fn again(
        &self,
        alloc: Global,
        summary: &[Note<'a>],
        names: &[String],
    ) -> Result<Firsts<'a>, Memory>
        requires { Lists (asks_variable (map string_bytes names.now)) summary.now self.now.firsts.names }
        ensures names { IfOk result (λ firsts. Lists (asks_variable (map string_bytes names.now)) summary.now firsts.names) }
        ensures same { IfOk result (λ firsts. (values : List ℕ → List Dated) → AreFirst values self.now.firsts → AreFirst values firsts) }
    {
        let variables = asked_variables(alloc, summary, names)?;
        self.firsts.copied(alloc, variables)
    }

    /// Do both know the same of runs with this summary?
    pub fn agrees(&self, other: &Outset, summary: &[Note]) -> bool
        ensures { result ≡ (self.now.last == other.now.last && self.now.lanes == other.now.lanes
            && list_all (agree_on self.now.firsts other.now.firsts) summary.now) }
    {
        self.last == other.last
            && self.lanes == other.lanes
            && self.firsts.agree(&other.firsts, summary)
    }

    /// Takes in more notes, one by one.
    pub fn add_all(&mut self, more: &[Note], names: &[String], from: u32)
        ensures names { self.new.firsts.names ≡ self.old.firsts.names }
        ensures counts { (notes : List Note) → Counts (map string_bytes names.now) from notes self.old
            → Counts (map string_bytes names.now) from (notes ++ more.now) self.new }
    {
        for note in more {
            self.add(note, names, from);
        }
    }
}

// How many lanes a note tells, at most.
fn lanes_of(note: &Note, names: &[String]) -> usize
    ensures { result ≡ cond (may_have_lane (map string_bytes names.now) note.now) 1 0 }
{
    if may_have_lane(note, names) { 1 } else { 0 }
}

// A note that may tell a lane of a name that was asked for
fn may_have_lane(note: &Note, names: &[String]) -> bool
    ensures { result ≡ may_have_lane (map string_bytes names.now) note.now }
{
    match *note {
        Note::StopOverrun { agent, .. } | Note::StopTrap { agent, .. } => is_asked(names, agent),
        Note::VariableEnd { variable, .. } => is_asked(names, variable),
        Note::StreamEnd { stream, .. } => is_asked(names, stream),
        _ => false,
    }
}
