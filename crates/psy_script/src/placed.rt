//! The stalls, orders and rounds of the lines so far, in their order.
ghost use Rattle.std.specs.Prelude.{◌≡◌, ◌<◌, ◌^◌, [], true, false, map, IfOk, OnOk};
ghost use Rattle.std.specs.List.{All, AllPairs};
ghost use Rattle.psy_history.specs.Scripts.{StallBefore};
ghost use Rattle.psy_script.specs.Entries.{clashes, is_narrow, order_from, round_from, stall_at, with_entry};

use crate::entry::{Entry, repeats};
use psy_base::{Items, Memory};
use psy_budget::Stall;
use psy_history::{Order, Round, Script};
use std::alloc::Global;
use std::collections::BTreeMap;
use std::marker::Model;

// Where a stall stands.
#[derive(Clone, Copy, PartialEq, Eq, PartialOrd, Ord, Drop)]
struct Place {
    agent: u32,
    action: u64,
    instr: u64,
}

/// Stalls, orders and rounds that are put in one by one. Contracts see them as a script.
#[derive(Drop)]
pub struct Placed {
    stalls: BTreeMap<Place, u64>,
    orders: BTreeMap<u64, Items<u32>>,
    rounds: BTreeMap<u64, Items<u32>>,
}

impl Model for Placed {
    ghost use Rattle.std.specs.Prelude.{map};
    ghost use Rattle.psy_history.specs.declared.told.Script.{Script};
    ghost use Rattle.psy_script.specs.Entries.{order_from, round_from, stall_at};

    ghost Value = { Script };

    ghost view = { λ p. record {
      stalls = map stall_at p.stalls.entries;
      orders = map order_from p.orders.entries;
      rounds = map round_from p.rounds.entries;
    } };
}

impl Placed {
    pub fn new(alloc: Global) -> Placed
        ensures { result ≡ record { stalls = []; orders = []; rounds = [] } }
    {
        Placed {
            stalls: BTreeMap::new(alloc),
            orders: BTreeMap::new(alloc),
            rounds: BTreeMap::new(alloc),
        }
    }

    /// One that is there stands where this one would; or the order lists an agent twice, or the round a number.
    pub fn clashes(&self, entry: &Entry) -> bool
        ensures { result ≡ clashes self.now entry.now }
    {
        match entry {
            Entry::Stall(stall) => self.stalls.contains_key(&place_of(stall)),
            Entry::Order(order) => {
                self.orders.contains_key(&order.cycle) || repeats(order.agents.as_slice())
            }
            Entry::Round { cycle, numbers } => {
                self.rounds.contains_key(cycle) || repeats(numbers.as_slice())
            }
        }
    }

    pub fn put(&mut self, alloc: Global, entry: Entry) -> Result<(), Memory>
        requires apart { clashes self.old entry ≡ false }
        requires narrow { is_narrow entry ≡ true }
        ensures { OnOk result (self.new ≡ with_entry self.old entry) }
    {
        match entry {
            Entry::Stall(stall) => {
                self.stalls.insert(place_of(&stall), stall.cycles)?;
            }
            Entry::Order(Order { cycle, agents }) => {
                self.orders.insert(cycle, agents)?;
            }
            Entry::Round { cycle, numbers } => {
                let processors = narrowed(alloc, numbers.as_slice())?;
                self.rounds.insert(cycle, processors)?;
            }
        }
        Ok(())
    }

    /// All of them. They rise.
    pub fn into_script(self, alloc: Global) -> Result<Script, Memory>
        ensures all { IfOk result (λ script. script ≡ self) }
        ensures stalls_rise { IfOk result (λ script. AllPairs StallBefore script.stalls) }
        ensures orders_rise { IfOk result (λ script. AllPairs (λ o p. o.cycle < p.cycle) script.orders) }
        ensures rounds_rise { IfOk result (λ script. AllPairs (λ r q. r.cycle < q.cycle) script.rounds) }
    {
        let Placed {
            stalls,
            orders,
            rounds,
        } = self;
        Ok(Script {
            stalls: sorted_stalls(alloc, stalls)?,
            orders: sorted_orders(alloc, orders)?,
            rounds: sorted_rounds(alloc, rounds)?,
        })
    }
}

fn place_of(stall: &Stall) -> Place
    ensures { stall_at (result, stall.now.cycles) ≡ stall.now }
{
    Place {
        agent: stall.agent,
        action: stall.action,
        instr: stall.instr,
    }
}

// The stalls by their places, which rise.
fn sorted_stalls(alloc: Global, stalls: BTreeMap<Place, u64>) -> Result<Items<Stall>, Memory>
    ensures all { IfOk result (λ sorted. sorted ≡ map stall_at stalls.entries) }
    ensures rise { IfOk result (AllPairs StallBefore) }
{
    let mut sorted = Items::new(alloc);
    for (place, cycles) in stalls {
        sorted.push(Stall {
            agent: place.agent,
            action: place.action,
            instr: place.instr,
            cycles,
        })?;
    }
    Ok(sorted)
}

// The orders by their cycles, which rise.
fn sorted_orders(alloc: Global, orders: BTreeMap<u64, Items<u32>>) -> Result<Items<Order>, Memory>
    ensures all { IfOk result (λ sorted. sorted ≡ map order_from orders.entries) }
    ensures rise { IfOk result (AllPairs (λ o p. o.cycle < p.cycle)) }
{
    let mut sorted = Items::new(alloc);
    for (cycle, agents) in orders {
        sorted.push(Order { cycle, agents })?;
    }
    Ok(sorted)
}

// The rounds by their cycles, which rise.
fn sorted_rounds(alloc: Global, rounds: BTreeMap<u64, Items<u32>>) -> Result<Items<Round>, Memory>
    ensures all { IfOk result (λ sorted. sorted ≡ map round_from rounds.entries) }
    ensures rise { IfOk result (AllPairs (λ r q. r.cycle < q.cycle)) }
{
    let mut sorted = Items::new(alloc);
    for (cycle, processors) in rounds {
        sorted.push(Round { cycle, processors })?;
    }
    Ok(sorted)
}

// The numbers in 32 bits.
fn narrowed(alloc: Global, numbers: &[u64]) -> Result<Items<u32>, Memory>
    requires { All (λ n. n < 2 ^ 32) numbers.now }
    ensures { IfOk result (λ narrow. narrow ≡ numbers.now) }
{
    let mut narrow = Items::new(alloc);
    for number in numbers {
        narrow.push(*number as u32)?;
    }
    Ok(narrow)
}
