//! The greatest counts on ways through code, by passes over the places that are reached, from the last to the first, until they settle.
//!
//! A pass visits each place once, and takes further what is counted along all steps to later places; a step back to an earlier one takes
//! another pass. So in code that goes back only at the ends of loops there are at most two passes more than loops nest, and one more for each
//! instruction that is counted, where there is no greatest count. In any code each pass but the last raises a cell, and no cell rises above the
//! number of these instructions by more than two.

ghost use Rattle.std.specs.Prelude.{◌≡◌, ◌+◌, ◌<◌, ◌^◌, ℕ, true, false, if◌then◌else◌, get_or, length, nat_lt, slice_set, Option};
ghost use Rattle.std.specs.List.{All, Contains};
ghost use Rattle.psy_meaning.specs.CodeWays.{IsUnbounded};
ghost use Rattle.psy_flow.specs.Quests.{HasCount};
ghost use Rattle.psy_flow.specs.Walks.{ArePassed, StaysIn};
ghost use Rattle.psy_flow.specs.Worths.{AreFound, AreSmall, AreTops, IsCourse, best_of, cell_of, worth_at, best_at};

use crate::parts::part_of;
use crate::quests::Quest;
use crate::walks::{Onward, goes_on_at};
use psy_base::Items;
use psy_code::Instr;

/// What comes of a pass.
#[derive(Clone, Copy, Debug)]
pub enum Course {
    /// No cell rose.
    Settled,
    /// Some rose.
    Rose,
    /// One stands for a way that passes something twice that is counted.
    Beyond,
}

/// The cell of a place, if there is one, and else 0.
pub fn cell(row: &[u64], place: Option<usize>) -> u64
    ensures { result ≡ cell_of row.now place }
{
    match place {
        None => 0,
        Some(place) => match row.get(place) {
            None => 0,
            Some(cell) => *cell,
        },
    }
}

fn best(row: &[u64], to: Onward) -> u64
    ensures { result ≡ best_of row.now to }
{
    cell(row, to.next).max(cell(row, to.jump))
}

// What the cells where ways go on make of a place.
fn worth(quest: Quest, instrs: &[Instr], row: &[u64], place: usize) -> u64
    requires place { place < length instrs.now }
    requires room { best_at instrs.now row.now place + 1 < 2 ^ 64 }
    ensures { result ≡ worth_at quest instrs.now row.now place }
{
    let part = part_of(&instrs[place]);
    if quest.ends(part) {
        return 1;
    }
    let best = best(row, goes_on_at(instrs, place));
    if best == 0 {
        return 0;
    }
    best + quest.counted(part)
}

// Raises the cell of a place to what it is worth, and tells whether it rose.
fn raise(quest: Quest, instrs: &[Instr], row: &mut Items<u64>, place: usize) -> bool
    requires place { place < length instrs.now }
    requires count { length row.old ≡ length instrs.now }
    requires room { best_at instrs.now row.old place + 1 < 2 ^ 64 }
    ensures rose { result ≡ nat_lt (get_or row.old place 0) (worth_at quest instrs.now row.old place) }
    ensures row { row.new ≡ (if nat_lt (get_or row.old place 0) (worth_at quest instrs.now row.old place)
        then slice_set row.old place (worth_at quest instrs.now row.old place) else row.old) }
{
    let worth = worth(quest, instrs, row.as_slice(), place);
    if row.as_slice()[place] < worth {
        row.set(place, worth);
        return true;
    }
    false
}

// One pass over the places, in their order.
fn pass(
    quest: Quest,
    instrs: &[Instr],
    from: usize,
    places: &[usize],
    most: u64,
    row: &mut Items<u64>,
) -> Course
    requires inside { StaysIn instrs.now from }
    requires passed { ArePassed instrs.now from places.now }
    requires few { most + 2 < 2 ^ 64 }
    requires count { length row.old ≡ length instrs.now }
    requires found { AreFound instrs.now quest places.now row.old }
    requires small { AreSmall most places.now row.old }
    ensures count { length row.new ≡ length instrs.now }
    ensures found { AreFound instrs.now quest places.now row.new }
    ensures course { IsCourse instrs.now quest places.now most row.old row.new result }
{
    let mut rose = false;
    'places: for place in places {
        rose |= raise(quest, instrs, row, *place);
        if cell(row.as_slice(), Some(*place)) > most + 1 {
            return Course::Beyond;
        }
    }
    if rose {
        return Course::Rose;
    }
    Course::Settled
}

// Empties the cells of the places.
fn empty(instrs: &[Instr], places: &[usize], row: &mut Items<u64>)
    requires inside { All (λ place. place < length instrs.now) places.now }
    requires count { length row.old ≡ length instrs.now }
    ensures count { length row.new ≡ length instrs.now }
    ensures empty { (place : ℕ) → Contains places.now place → get_or row.new place 0 ≡ 0 }
{
    'places: for place in places {
        row.set(*place, 0);
    }
}

/// Whether there is a greatest count on the ways from a place to the ends that are looked for. The places are those that ways from there pass;
/// where there is, their cells then stand for the ways from each of them that count most.
pub fn settle(
    quest: Quest,
    instrs: &[Instr],
    from: usize,
    places: &[usize],
    row: &mut Items<u64>,
) -> bool
    requires inside { StaysIn instrs.now from }
    requires passed { ArePassed instrs.now from places.now }
    requires count { length row.old ≡ length instrs.now }
    ensures count { length row.new ≡ length instrs.now }
    ensures tops { result ≡ true → AreTops instrs.now quest places.now row.new }
    ensures endless { result ≡ false → IsUnbounded (HasCount instrs.now quest from) }
{
    empty(instrs, places, row);
    let most = quest.count(instrs, places);
    'passes: loop {
        match pass(quest, instrs, from, places, most, row) {
            Course::Settled => return true,
            Course::Beyond => return false,
            Course::Rose => {}
        }
    }
}
