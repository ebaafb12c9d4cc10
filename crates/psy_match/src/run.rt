//! Whether a run is of a program.
ghost use Rattle.std.specs.Prelude.{◌≡◌, ◌<◌, ◌+◌, ◌-◌, ◌^◌, ◌==◌, ◌∷◌, ◌++◌, [], List, MatchOption, Some, drop, false, length, true};
ghost use Rattle.psy_log.specs.declared.note.Note.{Note as Said};
ghost use Rattle.psy_match.specs.Belonging.{Belongs, behind, first_in_run, foreign_in_run, is_next_agent, is_next_stream, is_next_variable};
ghost use Rattle.psy_tree.specs.declared.unit.Unit.{Unit as Whole};

use psy_log::Note;
use psy_tree::{AgentDecl, StreamDecl, Unit, VarDecl};

/// What the summary of a run doesn't list yet of a program.
#[derive(Clone, Copy)]
pub struct Left<'u> {
    pub agents: &'u [AgentDecl],
    pub variables: &'u [VarDecl],
    pub streams: &'u [StreamDecl],
}

impl Left<'_> {
    fn is_none(&self) -> bool
        ensures { result ≡ (length self.now.agents.now + length self.now.variables.now + length self.now.streams.now == 0) }
    {
        self.agents.is_empty() && self.variables.is_empty() && self.streams.is_empty()
    }
}

/// Whether a run is of a program. It takes in the notes of the run one by one.
#[derive(Clone, Copy)]
pub struct Belonging<'u> {
    /// What the summary doesn't list yet.
    pub left: Left<'u>,
    /// How many notes there were.
    pub notes: usize,
    /// The number of the first note that isn't of the program, counted from 1.
    pub foreign: Option<usize>,
}

impl<'u> Belonging<'u> {
    /// Before any note of a run.
    pub fn of(unit: &'u Unit) -> Belonging<'u>
        ensures { Belongs unit.now [] result }
    {
        Belonging {
            left: Left {
                agents: unit.agents.as_slice(),
                variables: unit.variables.as_slice(),
                streams: unit.streams.as_slice(),
            },
            notes: 0,
            foreign: None,
        }
    }

    /// Takes in a note.
    pub fn add(&mut self, note: &Note)
        ensures { (unit : Whole) (notes : List Said) → Belongs unit notes self.old → Belongs unit (notes ++ note.now ∷ []) self.new }
    {
        let number = self.notes.saturating_add(1);
        if self.foreign.is_none() {
            match behind(self.left, note) {
                Some(left) => self.left = left,
                None => self.foreign = Some(number),
            }
        }
        self.notes = number;
    }

    /// The number, counted from 1, of the first note of the run that isn't of the program: a line of the summary with another name. One more than there are
    /// notes where the summary lacks some.
    pub fn first_foreign(&self) -> Option<usize>
        ensures { (unit : Whole) (notes : List Said) → Belongs unit notes self.now → length notes < 2 ^ 64 - 1 → result ≡ foreign_in_run unit notes }
    {
        match self.foreign {
            Some(number) => Some(number),
            None if self.left.is_none() => None,
            None => Some(self.notes.saturating_add(1)),
        }
    }
}

/// The number, counted from 1, of the first note of a run that isn't of the program: a line of the summary with another name. One more than there are
/// notes where the summary lacks some.
pub fn foreign_in_run(notes: &[Note], unit: &Unit) -> Option<usize>
    ensures { result ≡ foreign_in_run unit.now notes.now }
{
    let mut belonging = Belonging::of(unit);
    for note in notes {
        belonging.add(note);
    }
    belonging.first_foreign()
}

// What is left behind a note; none where that isn't of the program.
fn behind<'u>(left: Left<'u>, note: &Note) -> Option<Left<'u>>
    ensures { MatchOption result
        ((notes : List Said) → first_in_run left.entry.agents.now left.entry.variables.now left.entry.streams.now (note.now ∷ notes) ≡ Some 1)
        (λ more. (notes : List Said) → first_in_run left.entry.agents.now left.entry.variables.now left.entry.streams.now (note.now ∷ notes)
        ≡ behind (first_in_run more.agents.now more.variables.now more.streams.now notes)) }
{
    match *note {
        Note::AgentEnd { agent, .. } => {
            let more = behind_agent(left, agent)?;
            Some(more)
        }
        Note::VariableEnd { variable, .. } => {
            let more = behind_variable(left, variable)?;
            Some(more)
        }
        Note::StreamEnd { stream, .. } => {
            let more = behind_stream(left, stream)?;
            Some(more)
        }
        _ => Some(left),
    }
}

fn behind_agent<'u>(left: Left<'u>, name: &[u8]) -> Option<Left<'u>>
    ensures { MatchOption result (is_next_agent left.entry.agents.now name.now ≡ false) (λ more. (is_next_agent left.entry.agents.now name.now ≡ true)
        × (more.agents.now ≡ drop 1 left.entry.agents.now) × (more.variables.now ≡ left.entry.variables.now) × (more.streams.now ≡ left.entry.streams.now)) }
{
    let (agent, agents) = left.agents.split_first()?;
    if name != agent.name.bytes() {
        return None;
    }
    Some(Left { agents, ..left })
}

fn behind_variable<'u>(left: Left<'u>, name: &[u8]) -> Option<Left<'u>>
    ensures { MatchOption result (is_next_variable left.entry.variables.now name.now ≡ false)
        (λ more. (is_next_variable left.entry.variables.now name.now ≡ true)
        × (more.agents.now ≡ left.entry.agents.now) × (more.variables.now ≡ drop 1 left.entry.variables.now) × (more.streams.now ≡ left.entry.streams.now)) }
{
    let (variable, variables) = left.variables.split_first()?;
    if name != variable.name.bytes() {
        return None;
    }
    Some(Left { variables, ..left })
}

fn behind_stream<'u>(left: Left<'u>, name: &[u8]) -> Option<Left<'u>>
    ensures { MatchOption result (is_next_stream left.entry.streams.now name.now ≡ false) (λ more. (is_next_stream left.entry.streams.now name.now ≡ true)
        × (more.agents.now ≡ left.entry.agents.now) × (more.variables.now ≡ left.entry.variables.now) × (more.streams.now ≡ drop 1 left.entry.streams.now)) }
{
    let (stream, streams) = left.streams.split_first()?;
    if name != stream.name.bytes() {
        return None;
    }
    Some(Left { streams, ..left })
}
