//! The names that a summary lists.
ghost use Rattle.std.specs.Prelude.{◌≡◌, IfOk, OnOk, not};
ghost use Rattle.std.specs.List.{position};
ghost use Rattle.psy_passes.specs.Listing.{added_agent, added_stream, added_variable, agents_in, streams_in, variables_in};
ghost use Rattle.psy_passes.specs.Tables.{is_among};

use crate::names::Names;
use psy_base::Memory;
use psy_log::Note;
use std::alloc::Global;

/// The names that a summary lists.
#[derive(Drop)]
pub struct Listed<'a> {
    pub agents: Names<'a>,
    pub variables: Names<'a>,
    pub streams: Names<'a>,
}

impl<'a> Listed<'a> {
    /// The names in the summary among these notes. The only error is want of memory.
    pub fn of(alloc: Global, notes: &[Note<'a>]) -> Result<Listed<'a>, Memory>
        ensures agents { IfOk result (λ listed. listed.agents ≡ agents_in notes.now) }
        ensures variables { IfOk result (λ listed. listed.variables ≡ variables_in notes.now) }
        ensures streams { IfOk result (λ listed. listed.streams ≡ streams_in notes.now) }
    {
        let mut listed = Listed {
            agents: Names::new(alloc),
            variables: Names::new(alloc),
            streams: Names::new(alloc),
        };
        for note in notes {
            listed.add(*note)?;
        }
        Ok(listed)
    }

    fn add(&mut self, note: Note<'a>) -> Result<(), Memory>
        ensures agents { OnOk result (self.new.agents ≡ added_agent self.old.agents note.entry) }
        ensures variables { OnOk result (self.new.variables ≡ added_variable self.old.variables note.entry) }
        ensures streams { OnOk result (self.new.streams ≡ added_stream self.old.streams note.entry) }
    {
        match note {
            Note::AgentEnd { agent, .. } => self.agents.add(agent),
            Note::VariableEnd { variable, .. } => self.variables.add(variable),
            Note::StreamEnd { stream, .. } => self.streams.add(stream),
            _ => Ok(()),
        }
    }

    /// Whether the name in a dated note, where this is one, is among those of its kind.
    pub fn has(&self, note: &Note) -> bool
        ensures { result ≡ is_among self.now note.now }
    {
        match *note {
            Note::StopOverrun { agent, .. } | Note::StopTrap { agent, .. } => {
                self.agents.place(agent).is_some()
            }
            Note::Value { variable, .. } => self.variables.place(variable).is_some(),
            Note::Message { stream, .. } => self.streams.place(stream).is_some(),
            _ => true,
        }
    }

    /// The place of the first note, counted from 0, whose name isn't among these.
    pub(crate) fn first_unlisted(&self, notes: &[Note]) -> Option<usize>
        ensures { result ≡ position (λ note. not (is_among self.now note)) notes.now }
    {
        notes.iter().position(|note| !self.has(note))
    }
}
