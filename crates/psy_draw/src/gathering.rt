//! What a picture keeps of notes that come one by one.

ghost use Rattle.std.specs.Prelude.{◌≡◌, ◌++◌, [], ◌∷◌, ℕ, true, IfOk, List, OnOk, map, string_bytes};
ghost use Rattle.std.specs.List.{list_all};
ghost use Rattle.psy_log.specs.declared.note.Note.{Note};
ghost use Rattle.psy_draw.specs.Columns.{Dated};
ghost use Rattle.psy_draw.specs.Gathering.{AreFirst, Gathers, asks_stream, is_known};
ghost use Rattle.psy_draw.specs.Homes.{Housed, housed_of};
ghost use Rattle.psy_draw.specs.Listing.{Lists};

use crate::asked::asked_streams;
use crate::firsts::Firsts;
use crate::scale::Scale;
use crate::series::Series;
use crate::stopped::{Stopped, Stops};
use psy_base::Memory;
use psy_log::Note;
use std::alloc::Global;

/// The lanes of stops, and the columns of variables and of streams. It takes in notes one by one: one walk over them fills all lanes.
#[derive(Drop)]
pub struct Gathering<'a> {
    pub stopped: Stopped<'a>,
    pub variables: Series<'a>,
    pub streams: Series<'a>,
}

impl<'a> Gathering<'a> {
    /// Before any note of a run with this summary, whose variables have these values at the first date.
    pub fn of(
        alloc: Global,
        summary: &[Note<'a>],
        firsts: Firsts<'a>,
        names: &[String],
        scale: &Scale,
    ) -> Result<Gathering<'a>, Memory>
        ensures variables { IfOk result (λ gathering. gathering.variables.names ≡ firsts.entry.names) }
        ensures streams { IfOk result (λ gathering. Lists (asks_stream (map string_bytes names.now)) summary.now gathering.streams.names) }
        ensures none { IfOk result (λ gathering. (homes : List Housed) (values : List ℕ → List Dated) → AreFirst values firsts.entry
            → Gathers scale.now homes (map string_bytes names.now) values [] gathering) }
    {
        let streams = asked_streams(alloc, summary, names)?;
        Ok(Gathering {
            stopped: Stopped::new(alloc),
            variables: Series::of_variables(alloc, firsts, scale)?,
            streams: Series::of_streams(alloc, streams)?,
        })
    }

    /// Takes in a note.
    pub fn add(&mut self, by: Stops<'a, '_>, note: &Note) -> Result<(), Memory>
        ensures variables { self.new.variables.names ≡ self.old.variables.names }
        ensures streams { self.new.streams.names ≡ self.old.streams.names }
        ensures gathers { OnOk result ((values : List ℕ → List Dated) (notes : List Note) → is_known by.entry.agents.now note.now ≡ true
            → Gathers by.entry.scale.now (map housed_of by.entry.homes.now) (map string_bytes by.entry.names.now) values notes self.old
            → Gathers by.entry.scale.now (map housed_of by.entry.homes.now) (map string_bytes by.entry.names.now) values (notes ++ note.now ∷ []) self.new) }
    {
        self.stopped.add(by, note)?;
        self.variables.add_value(by.scale, note)?;
        self.streams.add_message(by.scale, note)?;
        Ok(())
    }

    /// Takes in more notes, one by one.
    pub fn add_all(&mut self, by: Stops<'a, '_>, more: &[Note]) -> Result<(), Memory>
        ensures variables { self.new.variables.names ≡ self.old.variables.names }
        ensures streams { self.new.streams.names ≡ self.old.streams.names }
        ensures gathers { OnOk result ((values : List ℕ → List Dated) (notes : List Note) → list_all (is_known by.entry.agents.now) more.now ≡ true
            → Gathers by.entry.scale.now (map housed_of by.entry.homes.now) (map string_bytes by.entry.names.now) values notes self.old
            → Gathers by.entry.scale.now (map housed_of by.entry.homes.now) (map string_bytes by.entry.names.now) values (notes ++ more.now) self.new) }
    {
        for note in more {
            self.add(by, note)?;
        }
        Ok(())
    }
}
