//! What is kept of the lines before one.
ghost use Rattle.std.specs.Prelude.{◌≡◌, ◌+◌, ◌^◌, ◌<◌, ◌++◌, [], ◌∷◌, ℕ, false, map, length, get_or, slice_set, IfOk, OnOk, None, Some};
ghost use Rattle.std.specs.List.{list_any, range_with_len};
ghost use Rattle.psy_audit.specs.Befores.{StandsFor};
ghost use Rattle.psy_audit.specs.Traces.{Lines, acts_of, is_end, last_of, publications_of};
ghost use Rattle.psy_audit.specs.Turns.{past_on};
ghost use Rattle.psy_meaning.specs.Units.{IsBare};
ghost use Rattle.psy_tree.specs.declared.unit.Unit.{Unit as Whole};

use crate::said::{Act, Said, Segment};
use crate::tables::{act_in, add_segment, is_end, publication_in, segment_in};
use psy_base::{Items, Memory};
use psy_history::processors_of;
use psy_tree::Unit;
use std::alloc::Global;

/// What the fault of a line depends on, of the lines before it.
#[derive(Drop)]
pub struct Before {
    /// One of them ends the trace.
    pub ended: bool,
    /// What the last of them says.
    pub last: Option<Said>,
    /// By agent, its last action.
    pub acts: Items<Option<Act>>,
    /// By variable, how many publications it had.
    pub published: Items<u64>,
    /// By processor, the cycle behind its last stretch.
    pub past: Items<u64>,
    /// All stretches.
    pub segments: Items<Segment>,
}

impl Before {
    /// Before the first line.
    pub fn new(alloc: Global, unit: &Unit) -> Result<Before, Memory>
        requires { IsBare unit.now }
        ensures { IfOk result (StandsFor unit.now []) }
    {
        Ok(Before {
            ended: false,
            last: None,
            acts: no_acts(alloc, unit.agents.len() as u32)?,
            published: zeros(alloc, unit.variables.len() as u32)?,
            past: zeros(alloc, processors_of(unit))?,
            segments: Items::new(alloc),
        })
    }

    /// One more line, where none before it ends the trace.
    pub fn pass(&mut self, line: &Option<Said>) -> Result<(), Memory>
        ensures { OnOk result ((unit : Whole) (before : Lines) → StandsFor unit before self.old → self.old.ended ≡ false → length before < 2 ^ 63
            → StandsFor unit (before ++ line.now ∷ []) self.new) }
    {
        self.ended = is_end(line);
        self.last = *line;
        note_act(&mut self.acts, line);
        note_publication(&mut self.published, line);
        note_past(&mut self.past, line);
        add_segment(&mut self.segments, line)?;
        Ok(())
    }
}

// No action, of so many agents.
fn no_acts(alloc: Global, agents: u32) -> Result<Items<Option<Act>>, Memory>
    ensures { IfOk result (λ acts. acts ≡ map (λ agent. None) (range_with_len 0 agents)) }
{
    let mut acts = Items::new(alloc);
    'agents: for agent in 0..agents {
        acts.push(none_of(agent))?;
    }
    Ok(acts)
}

fn none_of(_agent: u32) -> Option<Act>
    ensures { result ≡ None }
{
    None
}

// 0 so many times.
fn zeros(alloc: Global, count: u32) -> Result<Items<u64>, Memory>
    ensures { IfOk result (λ numbers. numbers ≡ map (λ place. 0) (range_with_len 0 count)) }
{
    let mut numbers = Items::new(alloc);
    'places: for place in 0..count {
        numbers.push(zero_of(place))?;
    }
    Ok(numbers)
}

fn zero_of(_place: u32) -> u64
    ensures { result ≡ 0 }
{
    0
}

fn note_act(acts: &mut Items<Option<Act>>, line: &Option<Said>)
    ensures { (n : ℕ) (before : Lines) → acts.old ≡ map (λ agent. last_of (acts_of agent before)) (range_with_len 0 n)
        → list_any is_end before ≡ false
        → acts.new ≡ map (λ agent. last_of (acts_of agent (before ++ line.now ∷ []))) (range_with_len 0 n) }
{
    match act_in(line) {
        Some(act) => put_act(acts, act.agent as usize, act),
        None => {}
    }
}

// Writes an action at a place, where there is one.
fn put_act(acts: &mut Items<Option<Act>>, place: usize, act: Act)
    ensures { acts.new ≡ slice_set acts.old place (Some act) }
{
    match acts.get(place) {
        Some(_) => acts.set(place, Some(act)),
        None => {}
    }
}

fn note_publication(published: &mut Items<u64>, line: &Option<Said>)
    ensures { (n : ℕ) (before : Lines) → published.old ≡ map (λ variable. length (publications_of variable before)) (range_with_len 0 n)
        → list_any is_end before ≡ false
        → length before < 2 ^ 63
        → published.new ≡ map (λ variable. length (publications_of variable (before ++ line.now ∷ []))) (range_with_len 0 n) }
{
    match publication_in(line) {
        Some(publication) => count_one(published, publication.variable as usize),
        None => {}
    }
}

// Counts one more at a place, where there is one.
fn count_one(numbers: &mut Items<u64>, place: usize)
    ensures { get_or numbers.old place 0 < 2 ^ 63 → numbers.new ≡ slice_set numbers.old place (get_or numbers.old place 0 + 1) }
{
    let more = number_at(numbers, place).saturating_add(1);
    put_number(numbers, place, more);
}

// The number at a place, and 0 where there is none.
fn number_at(numbers: &Items<u64>, place: usize) -> u64
    ensures { result ≡ get_or numbers.now place 0 }
{
    match numbers.get(place) {
        Some(number) => *number,
        None => 0,
    }
}

// Writes a number at a place, where there is one.
fn put_number(numbers: &mut Items<u64>, place: usize, number: u64)
    ensures { numbers.new ≡ slice_set numbers.old place number }
{
    match numbers.get(place) {
        Some(_) => numbers.set(place, number),
        None => {}
    }
}

fn note_past(past: &mut Items<u64>, line: &Option<Said>)
    ensures { (n : ℕ) (before : Lines) → past.old ≡ map (λ processor. past_on processor before) (range_with_len 0 n)
        → list_any is_end before ≡ false
        → past.new ≡ map (λ processor. past_on processor (before ++ line.now ∷ [])) (range_with_len 0 n) }
{
    match segment_in(line) {
        Some(segment) => put_number(past, segment.processor as usize, segment.past),
        None => {}
    }
}
