//! From which places of code a way goes on to an `Advance`, by passes over them until no more is found: first behind those where ways go on.

ghost use Rattle.std.specs.Prelude.{◌≡◌, ◌≤◌, ◌<◌, true, false, IfOk, length};
ghost use Rattle.psy_judge.specs.Ending.{AreEnds, IsFoundEnd, IsPass, ends_by, marked_in};
ghost use Rattle.psy_judge.specs.Walked.{unmarked};

use crate::orders::{finishing, first_places};
use crate::walked::{Onward, goes_on, no_marks};
use psy_base::{Items, Memory};
use psy_code::Instr;
use std::alloc::Global;

fn marked_in(marks: &[bool], place: Option<usize>) -> bool
    ensures { result ≡ marked_in marks.now place }
{
    match place {
        None => false,
        Some(place) => match marks.get(place) {
            None => false,
            Some(mark) => *mark,
        },
    }
}

// Whether it is an `Advance`, or goes on at a marked place.
fn ends(instr: &Instr, to: Onward, marks: &[bool]) -> bool
    ensures { result ≡ ends_by instr.now to marks.now }
{
    match instr {
        Instr::Advance(_) => true,
        _ => marked_in(marks, to.next) || marked_in(marks, to.jump),
    }
}

// Marks the place where a way ends from it, and tells whether it wasn't marked before.
fn mark(instrs: &[Instr], marks: &mut Items<bool>, place: usize) -> bool
    requires place { place < length instrs.now }
    requires found { IsFoundEnd instrs.now marks.old }
    ensures found { IsFoundEnd instrs.now marks.new }
    ensures pass { IsPass instrs.now (λ q. q ≡ place) marks.old marks.new result }
{
    let seen = marks.as_slice()[place];
    if seen {
        return false;
    }
    let instr = &instrs[place];
    if !ends(instr, goes_on(instr, place, instrs.len()), marks.as_slice()) {
        return false;
    }
    marks.set(place, true);
    true
}

// One pass over all places.
fn pass(instrs: &[Instr], marks: &mut Items<bool>) -> bool
    requires found { IsFoundEnd instrs.now marks.old }
    ensures found { IsFoundEnd instrs.now marks.new }
    ensures pass { IsPass instrs.now (λ q. q < length instrs.now) marks.old marks.new result }
{
    let mut more = false;
    'places: for place in (0..instrs.len()).rev() {
        more |= mark(instrs, marks, place);
    }
    more
}

// Marks the place, unless it is outside the code.
fn mark_within(instrs: &[Instr], marks: &mut Items<bool>, place: usize)
    requires found { IsFoundEnd instrs.now marks.old }
    ensures found { IsFoundEnd instrs.now marks.new }
    ensures room { unmarked marks.new ≤ unmarked marks.old }
{
    if place < instrs.len() {
        mark(instrs, marks, place);
    }
}

// One pass over places in an order that ways keep as far as they can.
fn sweep(instrs: &[Instr], order: &[usize], marks: &mut Items<bool>)
    requires found { IsFoundEnd instrs.now marks.old }
    ensures found { IsFoundEnd instrs.now marks.new }
    ensures room { unmarked marks.new ≤ unmarked marks.old }
{
    'places: for place in order {
        mark_within(instrs, marks, *place);
    }
}

/// Marks by place: those from which a way goes on to an `Advance`. The only error is want of memory.
pub fn ending(alloc: Global, instrs: &[Instr]) -> Result<Items<bool>, Memory>
    ensures { IfOk result (AreEnds instrs.now) }
{
    let mut marks = no_marks(alloc, instrs.len())?;
    let places = first_places(alloc, instrs.len())?;
    let order = finishing(alloc, instrs, places.as_slice())?;
    'passes: loop {
        sweep(instrs, order.as_slice(), &mut marks);
        if !pass(instrs, &mut marks) {
            return Ok(marks);
        }
    }
}
