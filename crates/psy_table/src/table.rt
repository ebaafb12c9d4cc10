//! What has been told so far of each column.
ghost use Rattle.std.specs.Prelude.{◌≡◌, ◌∷◌, ◌++◌, [], List, IfOk, OnOk, codes};
ghost use Rattle.psy_arith.specs.declared.operators.Trap.{Trap};
ghost use Rattle.psy_log.specs.declared.note.Note.{Note};
ghost use Rattle.psy_log.specs.Forms.{trap_name};
ghost use Rattle.psy_table.specs.Rows.{Columns};
ghost use Rattle.psy_table.specs.Stands.{TableStands, columns_in, row_in};

use crate::cells::Cells;
use itoa::Buffer;
use psy_arith::Trap;
use psy_log::Note;
use psy_passes::Listed;
use psy_text::write::add_number;
use std::alloc::{AllocError, Global};

/// What has been told so far of each column.
#[derive(Drop)]
pub struct Table<'a> {
    /// The value of each variable.
    pub variables: Cells<'a>,
    /// The messages of each stream at the present date.
    pub streams: Cells<'a>,
    /// How each agent was stopped at the present date.
    pub agents: Cells<'a>,
}

impl<'a> Table<'a> {
    /// A table of these columns, before anything is told.
    pub fn new(alloc: Global, listed: Listed<'a>) -> Result<Table<'a>, AllocError>
        ensures { IfOk result (λ table. TableStands (columns_in listed.entry) [] [] table) }
    {
        Ok(Table {
            variables: Cells::new(alloc, listed.variables)?,
            streams: Cells::new(alloc, listed.streams)?,
            agents: Cells::new(alloc, listed.agents)?,
        })
    }

    /// Takes in what a note tells.
    pub fn tell(&mut self, note: Note<'_>) -> Result<(), AllocError>
        ensures { OnOk result ((columns : Columns) (told today : List Note) → TableStands columns told today self.old
            → TableStands columns (note.entry ∷ told) (note.entry ∷ today) self.new) }
    {
        match note {
            Note::Value {
                variable,
                value,
                ..
            } => self
                .variables
                .put(variable, Buffer::new().format(value).as_bytes()),
            Note::Message { stream, value, .. } => self
                .streams
                .join(stream, Buffer::new().format(value).as_bytes()),
            Note::StopOverrun { agent, .. } => self.agents.put(agent, b"overrun"),
            Note::StopTrap { agent, kind, .. } => self.agents.put(agent, trap_text(kind)),
            _ => Ok(()),
        }
    }

    /// Adds the row of a date.
    pub fn add_row(&self, out: &mut Vec<u8>, date: u64) -> Result<(), AllocError>
        ensures { OnOk result (out.new.items ≡ out.old.items ++ row_in self.now date) }
    {
        add_number(out, date)?;
        self.variables.add_to(out)?;
        self.streams.add_to(out)?;
        self.agents.add_to(out)?;
        out.extend_from_slice(b"\r\n")
    }

    /// Goes on to the next date: values stay, messages and stops are those of one date.
    pub fn end_date(&mut self)
        ensures { (columns : Columns) (told today : List Note) → TableStands columns told today self.old → TableStands columns told [] self.new }
    {
        self.streams.clear();
        self.agents.clear();
    }
}

// How a trap stopped an agent.
fn trap_text(kind: Trap) -> &'static [u8]
    ensures { result.now ≡ codes "trap " ++ trap_name kind }
{
    match kind {
        Trap::Divide => b"trap divide",
        Trap::Index => b"trap index",
        Trap::Loop => b"trap loop",
        Trap::Take => b"trap take",
    }
}
