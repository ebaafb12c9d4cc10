//! Rows of a run whose notes come one by one.
ghost use Rattle.std.specs.Prelude.{◌≡◌, ◌++◌, List, OnOk};
ghost use Rattle.psy_log.specs.declared.note.Note.{Note as Said};
ghost use Rattle.psy_table.specs.Rows.{Columns, date_of, is_that, today_of};
ghost use Rattle.psy_table.specs.Stands.{TableStands};
ghost use Rattle.psy_table.specs.Streams.{TellsRow, ended_before, ended_row};

use crate::table::Table;
use psy_log::Note;
use psy_passes::{Tell, TellFault};
use std::alloc::AllocError;

/// Tells the row of each date, once a note comes that isn't of it.
#[derive(Drop)]
pub struct RowTeller<'a> {
    pub table: Table<'a>,
    /// The date of the latest note, where it is dated.
    pub latest: Option<u64>,
}

impl<'a> Tell for RowTeller<'a> {
    ghost tells = { TellsRow };

    ghost refuses = { λ _ _. ⊥ };

    fn tell(&mut self, text: &mut Vec<u8>, note: &Note<'_>) -> Result<(), TellFault> {
        end_before(&mut self.table, text, self.latest, note)?;
        self.table.tell(*note)?;
        self.latest = date_of(note);
        Ok(())
    }
}

// Adds the row of the date that ends before a note.
fn end_before(
    table: &mut Table,
    text: &mut Vec<u8>,
    latest: Option<u64>,
    note: &Note,
) -> Result<(), AllocError>
    ensures row { OnOk result (text.new.items ≡ text.old.items ++ ended_row table.old (ended_before latest note.now)) }
    ensures stands { OnOk result ((columns : Columns) (told today : List Said) → TableStands columns told today table.old
        → TableStands columns told (today_of (ended_before latest note.now) today) table.new) }
{
    match ended_before(latest, note) {
        Some(date) => {
            table.add_row(text, date)?;
            table.end_date();
            Ok(())
        }
        None => Ok(()),
    }
}

// The date of the notes so far that ends before this one.
fn ended_before(latest: Option<u64>, note: &Note) -> Option<u64>
    ensures { result ≡ ended_before latest note.now }
{
    let date = latest?;
    if is_that(date, date_of(note)) {
        None
    } else {
        Some(date)
    }
}

// Whether there is a date, and it is that.
fn is_that(date: u64, other: Option<u64>) -> bool
    ensures { result ≡ is_that date other }
{
    match other {
        Some(other) => other == date,
        None => false,
    }
}

// The date of a dated note.
fn date_of(note: &Note) -> Option<u64>
    ensures { result ≡ date_of note.now }
{
    match *note {
        Note::StopOverrun { date, .. }
        | Note::StopTrap { date, .. }
        | Note::Value { date, .. }
        | Note::Message { date, .. } => Some(date),
        _ => None,
    }
}
