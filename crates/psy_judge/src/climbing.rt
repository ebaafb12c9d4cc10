//! The greatest two heights of each place that an owner reaches, by passes over these places until none rises.
//!
//! A place is passed behind one from which a way comes to it, so that where each place has one height a second pass finds nothing more. Where
//! heights differ, places are passed in an order that ways keep as far as they can, and a place to which a way comes back higher is told at once
//! that it has no greatest height.

ghost use Rattle.std.specs.Prelude.{◌≡◌, ◌<◌, ◌^◌, ℕ, length, true, false, OnOk, ⊤};
ghost use Rattle.std.specs.List.{Contains};
ghost use Rattle.psy_flow.specs.Owners.{Owner};
ghost use Rattle.psy_judge.specs.Climbing.{IsWalked};
ghost use Rattle.psy_judge.specs.Highest.{AreFound, AreSmall, AreStarts, AreTops, IsCourse, IsEmpty, room_of};
ghost use Rattle.psy_judge.specs.Walked.{ArePassedFrom};

use crate::circles::{lift, no_places, visit_noting};
use crate::heights::{Top, begin, pass};
use crate::orders::finishing;
use psy_base::{Items, Memory};
use psy_code::Code;
use std::alloc::Global;

// Visits a place, unless it is outside the code.
fn visit_within(code: &Code, row: &mut Items<Top>, from: &mut Items<usize>, place: usize) -> bool
    requires count { length row.old ≡ length code.now.instrs }
    requires few { length code.now.instrs < 2 ^ 32 }
    requires small { AreSmall (length code.now.instrs) row.old }
    ensures count { length row.new ≡ length code.now.instrs }
    ensures small { AreSmall (length code.now.instrs) row.new }
    ensures course { (owner : Owner) → AreFound code.now owner row.old → IsCourse code.now owner (λ after. ⊤) row.old row.new result }
{
    if place >= code.instrs.len() {
        return false;
    }
    visit_noting(code, row, from, place)
}

// One pass over places, the last first.
fn sweep(code: &Code, order: &[usize], row: &mut Items<Top>, from: &mut Items<usize>) -> bool
    requires count { length row.old ≡ length code.now.instrs }
    requires few { length code.now.instrs < 2 ^ 32 }
    requires small { AreSmall (length code.now.instrs) row.old }
    ensures count { length row.new ≡ length code.now.instrs }
    ensures small { AreSmall (length code.now.instrs) row.new }
    ensures course { (owner : Owner) → AreFound code.now owner row.old → IsCourse code.now owner (λ after. ⊤) row.old row.new result }
{
    let mut rose = false;
    'places: for at in (0..order.len()).rev() {
        rose |= visit_within(code, row, from, order[at]);
    }
    rose
}

// A pass in this order, and a lift where it rose; else a pass over all places. It tells whether there may be more.
fn round(
    code: &Code,
    places: &[usize],
    order: &[usize],
    row: &mut Items<Top>,
    from: &mut Items<usize>,
    onto: &mut Items<usize>,
    seen: &mut Items<usize>,
    stamp: usize,
) -> bool
    requires inside { (place : ℕ) → Contains places.now place → place < length code.now.instrs }
    requires count { length row.old ≡ length code.now.instrs }
    requires few { length code.now.instrs < 2 ^ 32 }
    requires small { AreSmall (length code.now.instrs) row.old }
    ensures count { length row.new ≡ length code.now.instrs }
    ensures small { AreSmall (length code.now.instrs) row.new }
    ensures walked { (owner : Owner) → AreFound code.now owner row.old → IsWalked code.now owner places.now row.old row.new result }
    ensures room { (owner : Owner) → AreFound code.now owner row.old → result ≡ true
        → room_of (length code.now.instrs) row.new < room_of (length code.now.instrs) row.old }
{
    let rose = sweep(code, order, row, from);
    if !rose {
        return pass(code, places, row);
    }
    lift(code, places, row, from.as_slice(), onto, seen, stamp);
    true
}

// Rounds until nothing rises.
fn climb(alloc: Global, code: &Code, places: &[usize], row: &mut Items<Top>) -> Result<(), Memory>
    requires inside { (place : ℕ) → Contains places.now place → place < length code.now.instrs }
    requires count { length row.old ≡ length code.now.instrs }
    requires few { length code.now.instrs < 2 ^ 32 }
    requires small { AreSmall (length code.now.instrs) row.old }
    requires owned { (owner : Owner) × AreFound code.now owner row.old }
    ensures count { OnOk result (length row.new ≡ length code.now.instrs) }
    ensures small { OnOk result (AreSmall (length code.now.instrs) row.new) }
    ensures walked { OnOk result ((owner : Owner) → AreFound code.now owner row.old → IsWalked code.now owner places.now row.old row.new false) }
{
    let count = row.len();
    let order = finishing(alloc, code.instrs.as_slice(), places)?;
    let mut from = no_places(alloc, count)?;
    let mut onto = no_places(alloc, count)?;
    let mut seen = no_places(alloc, count)?;
    let mut stamp = count;
    'rounds: loop {
        stamp = stamp.wrapping_add(count);
        if !round(
            code,
            places,
            order.as_slice(),
            row,
            &mut from,
            &mut onto,
            &mut seen,
            stamp,
        ) {
            return Ok(());
        }
    }
}

// Two passes over all places: the second tells whether there may be more.
fn twice(code: &Code, places: &[usize], row: &mut Items<Top>) -> bool
    requires inside { (place : ℕ) → Contains places.now place → place < length code.now.instrs }
    requires count { length row.old ≡ length code.now.instrs }
    requires few { length code.now.instrs < 2 ^ 32 }
    requires small { AreSmall (length code.now.instrs) row.old }
    ensures count { length row.new ≡ length code.now.instrs }
    ensures small { AreSmall (length code.now.instrs) row.new }
    ensures walked { (owner : Owner) → AreFound code.now owner row.old → IsWalked code.now owner places.now row.old row.new result }
{
    pass(code, places, row);
    pass(code, places, row)
}

/// Finds the greatest two heights of all places that an owner reaches, which begins at the starts. The places are those, and the row is empty.
/// The only error is want of memory.
pub fn settle(
    alloc: Global,
    code: &Code,
    starts: &[u32],
    places: &[usize],
    row: &mut Items<Top>,
) -> Result<(), Memory>
    requires passed { ArePassedFrom code.now.instrs starts.now places.now }
    requires few { length code.now.instrs < 2 ^ 32 }
    requires empty { IsEmpty (length code.now.instrs) row.old }
    requires owned { (owner : Owner) × AreStarts code.now owner starts.now }
    ensures count { OnOk result (length row.new ≡ length code.now.instrs) }
    ensures small { OnOk result (AreSmall (length code.now.instrs) row.new) }
    ensures tops { OnOk result ((owner : Owner) → AreStarts code.now owner starts.now → AreTops code.now owner row.new) }
{
    begin(code, starts, row);
    if twice(code, places, row) {
        climb(alloc, code, places, row)?;
    }
    Ok(())
}
