//! From when on variables are silent.
ghost use Rattle.std.specs.Prelude.{◌≡◌, ◌++◌, ◌∷◌, [], List, IfOk, OnOk, length, map};
ghost use Rattle.std.specs.List.{flat_map};
ghost use Rattle.psy_draw.specs.Silences.{silent_of};
ghost use Rattle.psy_log.specs.declared.note.Note.{Note as Said};
ghost use Rattle.psy_match.specs.Silences.{AreStopped, Owning, kept_of, owning_in, owning_of, silence_of, silences_in, stopped_at, stopped_in};
ghost use Rattle.psy_tree.specs.Parts.{agent_at};

use psy_draw::Silence;
use psy_log::Note;
use psy_tree::{Unit, VarDecl};
use std::alloc::{AllocError, Global};

/// A variable, the agent that owns it, and the date at which this one was stopped, where it was.
#[derive(Clone, Copy, Debug, Drop)]
pub struct Owned<'u> {
    pub variable: &'u [u8],
    pub agent: &'u [u8],
    pub since: Option<u64>,
}

/// From when on the variables of a program are silent. It takes in the notes of a run one by one.
#[derive(Drop)]
pub struct Silencing<'u> {
    /// The variables that have owners.
    pub owned: Vec<Owned<'u>>,
}

impl<'u> Silencing<'u> {
    /// Of no variables.
    pub fn none(alloc: Global) -> Silencing<'u>
        ensures { (notes : List Said) → AreStopped [] notes result }
    {
        Silencing {
            owned: Vec::new(alloc),
        }
    }

    /// Before any note of a run of this program.
    pub fn of(alloc: Global, unit: &'u Unit) -> Result<Silencing<'u>, AllocError>
        ensures { IfOk result (λ silencing. AreStopped (owning_in unit.now) [] silencing) }
    {
        let mut owned = Vec::new(alloc);
        for variable in unit.variables.as_slice() {
            add_owned(&mut owned, unit, variable)?;
        }
        Ok(Silencing { owned })
    }

    /// Takes in a note.
    pub fn add(&mut self, note: &Note)
        ensures { (owning : List Owning) (notes : List Said) → AreStopped owning notes self.old → AreStopped owning (notes ++ note.now ∷ []) self.new }
    {
        match *note {
            Note::StopOverrun { date, agent } => stop(self.owned.as_mut_slice(), agent, date),
            Note::StopTrap { date, agent, .. } => stop(self.owned.as_mut_slice(), agent, date),
            _ => {}
        }
    }

    /// The variables whose owners were stopped, each with the date of the stop.
    pub fn silences(&self, alloc: Global) -> Result<Vec<Silence<'u>>, AllocError>
        ensures { IfOk result (λ silences. (owning : List Owning) (notes : List Said) → AreStopped owning notes self.now
            → map silent_of silences.items ≡ flat_map silence_of (map (stopped_in notes) owning)) }
    {
        let mut silences = Vec::new(alloc);
        for owned in self.owned.as_slice() {
            add_silence(&mut silences, owned)?;
        }
        Ok(silences)
    }
}

/// The variables of a program whose owners were stopped in a run, each with the date of the stop.
pub fn silences<'u>(
    alloc: Global,
    notes: &[Note],
    unit: &'u Unit,
) -> Result<Vec<Silence<'u>>, AllocError>
    ensures { IfOk result (λ silences. map silent_of silences.items ≡ silences_in unit.now notes.now) }
{
    let mut silencing = Silencing::of(alloc, unit)?;
    for note in notes {
        silencing.add(note);
    }
    silencing.silences(alloc)
}

// Adds a variable, where it has an owner.
fn add_owned<'u>(
    owned: &mut Vec<Owned<'u>>,
    unit: &'u Unit,
    variable: &'u VarDecl,
) -> Result<(), AllocError>
    ensures { OnOk result (map kept_of owned.new.items ≡ map kept_of owned.old.items ++ owning_of unit.now variable.now) }
{
    match variable.owner {
        Some(owner) => Ok(owned.push(Owned {
            variable: variable.name.bytes(),
            agent: agent_name(unit, owner),
            since: None,
        })?),
        None => Ok(()),
    }
}

fn agent_name(unit: &Unit, agent: u32) -> &[u8]
    ensures { result.now ≡ (agent_at unit.now agent).name }
{
    match unit.agents.as_slice().get(agent as usize) {
        Some(agent) => agent.name.bytes(),
        None => b"",
    }
}

// An agent is stopped at a date.
fn stop(owned: &mut [Owned], agent: &[u8], date: u64)
    ensures stopped { map kept_of owned.new ≡ map (stopped_at agent.now date) (map kept_of owned.old) }
    ensures as_many { length owned.new ≡ length owned.old }
{
    for one in owned.iter_mut() {
        stop_one(one, agent, date);
    }
}

fn stop_one(owned: &mut Owned, agent: &[u8], date: u64)
    ensures { kept_of owned.new ≡ stopped_at agent.now date (kept_of owned.old) }
{
    if owned.since.is_none() && owned.agent == agent {
        owned.since = Some(date);
    }
}

// Adds the silence of a variable, where its owner was stopped.
fn add_silence<'u>(silences: &mut Vec<Silence<'u>>, owned: &Owned<'u>) -> Result<(), AllocError>
    ensures { OnOk result (map silent_of silences.new.items ≡ map silent_of silences.old.items ++ silence_of (kept_of owned.now)) }
{
    match owned.since {
        Some(date) => Ok(silences.push(Silence {
            variable: owned.variable,
            date,
        })?),
        None => Ok(()),
    }
}
