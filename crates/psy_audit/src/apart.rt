//! The actions of an agent as they wait: where no two of them wait at once, the ones that matter at a cycle are found in few steps.
ghost use Rattle.std.specs.Prelude.{◌≡◌, ◌+◌, ◌-◌, ◌<◌, ◌≤◌, ◌++◌, [], ◌∷◌, ℕ, true, get_or, length, take, drop, OnOk};
ghost use Rattle.std.specs.List.{All};
ghost use Rattle.psy_audit.specs.Apart.{AreApart, IsBefore, IsSteady};
ghost use Rattle.psy_audit.specs.Waits.{pending_in};

use crate::cycles::is_unfinished;
use crate::waits::Wait;
use psy_base::{Items, Memory};
use std::alloc::Global;
use std::marker::Model;

/// Some actions as they wait, and whether no two of them are known to wait at once. Contracts see the list of them.
#[derive(Drop)]
pub struct Waits {
    list: Items<Wait>,
    /// Where it holds, each of them is over before those behind it are released.
    apart: bool,
}

impl Model for Waits {
    ghost use Rattle.std.specs.Prelude.{◌≡◌, true, List};
    ghost use Rattle.psy_audit.specs.declared.waits.Wait.{Wait};
    ghost use Rattle.psy_audit.specs.Apart.{AreApart};

    ghost Value = { List Wait };

    ghost view = { λ waits. waits.list };

    ghost invariant = { λ waits. waits.apart ≡ true → AreApart waits.list };
}

impl Waits {
    /// None.
    pub fn new(alloc: Global) -> Waits
        ensures { result ≡ [] }
    {
        Waits {
            list: Items::new(alloc),
            apart: true,
        }
    }

    /// One more behind the others. The only error is want of memory.
    pub fn push(&mut self, wait: Wait) -> Result<(), Memory>
        ensures { OnOk result (self.new ≡ self.old ++ wait ∷ []) }
    {
        let apart = stay_apart(self.apart, self.list.as_slice(), &wait);
        self.apart = false;
        self.list.push(wait)?;
        self.apart = apart;
        Ok(())
    }

    /// Those of them that tell which are pending at a cycle, and how long they stay so.
    pub fn near(&self, cycle: u64) -> &[Wait]
        ensures now { pending_in cycle result.now ≡ pending_in cycle self.now }
        ensures steady { (to c : ℕ) → cycle ≤ c → c < to → All (IsSteady cycle to) result.now → pending_in c self.now ≡ pending_in cycle self.now }
    {
        near(self.apart, self.list.as_slice(), cycle)
    }
}

// The same of a list.
fn near(apart: bool, list: &[Wait], cycle: u64) -> &[Wait]
    requires { apart ≡ true → AreApart list.now }
    ensures now { pending_in cycle result.now ≡ pending_in cycle list.now }
    ensures steady { (to c : ℕ) → cycle ≤ c → c < to → All (IsSteady cycle to) result.now → pending_in c list.now ≡ pending_in cycle list.now }
{
    if apart {
        two_at(list, released_by(list, cycle))
    } else {
        list
    }
}

// One more is apart from some that are.
fn stay_apart(apart: bool, list: &[Wait], wait: &Wait) -> bool
    ensures { (apart ≡ true → AreApart list.now) → result ≡ true → AreApart (list.now ++ wait.now ∷ []) }
{
    if apart {
        comes_behind(list, wait)
    } else {
        false
    }
}

// The last of some, if there is one, is over before an action is released.
fn comes_behind(list: &[Wait], wait: &Wait) -> bool
    ensures { result ≡ true → (d : Wait) → 0 < length list.now → IsBefore (get_or list.now (length list.now - 1) d) wait.now }
{
    let len = list.len();
    if len == 0 {
        true
    } else {
        is_before(&list[len - 1], wait)
    }
}

fn is_before(one: &Wait, other: &Wait) -> bool
    ensures { result ≡ true → IsBefore one.now other.now }
{
    !is_unfinished(one.act.ending) && (u128::from(one.past) <= other.from && one.from <= other.from)
}

// A place before which the last one is released by a cycle, and at which the next one isn't.
fn released_by(list: &[Wait], cycle: u64) -> usize
    ensures within { result ≤ length list.now }
    ensures before { (d : Wait) → 0 < result → (get_or list.now (result - 1) d).from ≤ cycle }
    ensures behind { (d : Wait) → result < length list.now → cycle < (get_or list.now result d).from }
{
    let mut low: usize = 0;
    let mut high = list.len();
    'halves: while low < high {
        let middle = middle_of(low, high);
        if list[middle].from <= u128::from(cycle) {
            low = middle + 1;
        } else {
            high = middle;
        }
    }
    low
}

/// A place that isn't before one and is before another.
pub fn middle_of(low: usize, high: usize) -> usize
    requires { low < high }
    ensures from { low ≤ result }
    ensures before { result < high }
{
    low + (high - low) / 2
}

// The one before a place and the one at it.
fn two_at(list: &[Wait], place: usize) -> &[Wait]
    requires { place ≤ length list.now }
    ensures { result.now ≡ take 2 (drop (place - 1) list.now) }
{
    let rest = list.split_at(place.saturating_sub(1)).1;
    rest.split_at(rest.len().min(2)).0
}
