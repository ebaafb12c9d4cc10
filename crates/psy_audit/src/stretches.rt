//! The stretches of an agent: where they stand in the order of its actions, those of one action are found in few steps.
ghost use Rattle.std.specs.Prelude.{◌≡◌, ◌==◌, ◌+◌, ◌-◌, ◌<◌, ◌≤◌, ◌++◌, [], ◌∷◌, true, filter, get_or, length, drop, take, OnOk};
ghost use Rattle.std.specs.List.{prefix_len};
ghost use Rattle.psy_audit.specs.Apart.{AreRising};
ghost use Rattle.psy_audit.specs.declared.said.Segment.{Segment as Stretch};

use crate::apart::middle_of;
use crate::said::Segment;
use psy_base::{Items, Memory};
use std::alloc::Global;
use std::marker::Model;

/// Some stretches, and whether they are known to stand in the order of actions. Contracts see the list of them.
#[derive(Drop)]
pub struct Stretches {
    list: Items<Segment>,
    /// Where it holds, the numbers of their actions don't fall.
    rising: bool,
}

impl Model for Stretches {
    ghost use Rattle.std.specs.Prelude.{◌≡◌, true, List};
    ghost use Rattle.psy_audit.specs.declared.said.Segment.{Segment};
    ghost use Rattle.psy_audit.specs.Apart.{AreRising};

    ghost Value = { List Segment };

    ghost view = { λ stretches. stretches.list };

    ghost invariant = { λ stretches. stretches.rising ≡ true → AreRising stretches.list };
}

impl Stretches {
    /// None.
    pub fn new(alloc: Global) -> Stretches
        ensures { result ≡ [] }
    {
        Stretches {
            list: Items::new(alloc),
            rising: true,
        }
    }

    /// One more behind the others. The only error is want of memory.
    pub fn push(&mut self, segment: Segment) -> Result<(), Memory>
        ensures { OnOk result (self.new ≡ self.old ++ segment ∷ []) }
    {
        let rising = stay_rising(self.rising, self.list.as_slice(), &segment);
        self.rising = false;
        self.list.push(segment)?;
        self.rising = rising;
        Ok(())
    }

    /// Some of them, of which those of the action of a number are those of all.
    pub fn near(&self, number: u64) -> &[Segment]
        ensures { filter (λ (s : Stretch). s.number == number) result.now ≡ filter (λ (s : Stretch). s.number == number) self.now }
    {
        near(self.rising, self.list.as_slice(), number)
    }
}

// The same of a list.
fn near(rising: bool, list: &[Segment], number: u64) -> &[Segment]
    requires { rising ≡ true → AreRising list.now }
    ensures { filter (λ (s : Stretch). s.number == number) result.now ≡ filter (λ (s : Stretch). s.number == number) list.now }
{
    if rising {
        front_of(list.split_at(place_of(list, number)).1, number)
    } else {
        list
    }
}

// One more is of no earlier action than some in the order of actions.
fn stay_rising(rising: bool, list: &[Segment], segment: &Segment) -> bool
    ensures { (rising ≡ true → AreRising list.now) → result ≡ true → AreRising (list.now ++ segment.now ∷ []) }
{
    if rising {
        comes_behind(list, segment)
    } else {
        false
    }
}

// The last of some, if there is one, is of no later action.
fn comes_behind(list: &[Segment], segment: &Segment) -> bool
    ensures { result ≡ true → (d : Stretch) → 0 < length list.now → (get_or list.now (length list.now - 1) d).number ≤ segment.now.number }
{
    let len = list.len();
    if len == 0 {
        true
    } else {
        list[len - 1].number <= segment.number
    }
}

// A place before which the last one is of an earlier action, and at which the next one isn't.
fn place_of(list: &[Segment], number: u64) -> usize
    ensures within { result ≤ length list.now }
    ensures before { (d : Stretch) → 0 < result → (get_or list.now (result - 1) d).number < number }
    ensures behind { (d : Stretch) → result < length list.now → number ≤ (get_or list.now result d).number }
{
    let mut low: usize = 0;
    let mut high = list.len();
    'halves: while low < high {
        let middle = middle_of(low, high);
        if list[middle].number < number {
            low = middle + 1;
        } else {
            high = middle;
        }
    }
    low
}

// The first of some stretches, as long as they are of the action of a number.
fn front_of(list: &[Segment], number: u64) -> &[Segment]
    ensures { result.now ≡ take (prefix_len (λ (s : Stretch). s.number == number) list.now) list.now }
{
    list.split_at(front_len(list, number)).0
}

fn front_len(list: &[Segment], number: u64) -> usize
    ensures value { result ≡ prefix_len (λ (s : Stretch). s.number == number) list.now }
    ensures within { result ≤ length list.now }
{
    list.iter()
        .take_while(|segment| segment.number == number)
        .count()
}
