//! The names that a summary lists.

ghost use Rattle.std.specs.Prelude.{IfOk, OnOk};
ghost use Rattle.psy_draw.specs.Listing.{Adds, Lists, ends_agent, ends_stream, ends_variable};

use crate::names::Names;
use psy_base::Memory;
use psy_log::Note;
use std::alloc::Global;

/// The names that the summary lists.
#[derive(Drop)]
pub struct Listed<'a> {
    pub agents: Names<'a>,
    pub variables: Names<'a>,
    pub streams: Names<'a>,
}

impl<'a> Listed<'a> {
    /// The names in the summary among these notes.
    pub fn of(alloc: Global, notes: &[Note<'a>]) -> Result<Listed<'a>, Memory>
        ensures agents { IfOk result (λ listed. Lists ends_agent notes.now listed.agents) }
        ensures variables { IfOk result (λ listed. Lists ends_variable notes.now listed.variables) }
        ensures streams { IfOk result (λ listed. Lists ends_stream notes.now listed.streams) }
    {
        let mut listed = Listed {
            agents: Names::new(alloc),
            variables: Names::new(alloc),
            streams: Names::new(alloc),
        };
        for note in notes {
            listed.add(*note)?;
        }
        Ok(listed)
    }

    fn add(&mut self, note: Note<'a>) -> Result<(), Memory>
        ensures agents { OnOk result (Adds ends_agent note.entry self.old.agents self.new.agents) }
        ensures variables { OnOk result (Adds ends_variable note.entry self.old.variables self.new.variables) }
        ensures streams { OnOk result (Adds ends_stream note.entry self.old.streams self.new.streams) }
    {
        match note {
            Note::AgentEnd { agent, .. } => self.agents.add(agent),
            Note::VariableEnd { variable, .. } => self.variables.add(variable),
            Note::StreamEnd { stream, .. } => self.streams.add(stream),
            _ => Ok(()),
        }
    }
}
