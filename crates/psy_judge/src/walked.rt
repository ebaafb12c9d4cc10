//! The places that ways through code pass, where some of them may leave the code.

ghost use Rattle.std.specs.Prelude.{◌≡◌, ◌<◌, ℕ, false, length, replicate, Some, IfOk, OnOk, slice_get, slice_index_or};
ghost use Rattle.std.specs.List.{All, Contains};
ghost use Rattle.psy_code.specs.declared.instr.Instr.{Instr as Instruction};
ghost use Rattle.psy_judge.specs.Walked.{AreMet, ArePassedFrom, IsGrown, IsMarkedAt, IsPassedFrom, MayFollow, onward_of};

use psy_base::{Items, Memory};
use psy_code::Instr;
use std::alloc::Global;

/// The places where a way may go on after an instruction.
#[derive(Clone, Copy, Debug)]
pub struct Onward {
    /// The next place.
    pub next: Option<usize>,
    /// That of a jump.
    pub jump: Option<usize>,
}

/// Where a way may go on after an instruction at a place of code with so many of them.
pub fn goes_on(instr: &Instr, place: usize, count: usize) -> Onward
    requires { place < count }
    ensures { result ≡ onward_of instr.now place }
{
    let next = Some(place + 1);
    match instr {
        Instr::Jump(to) => Onward {
            next: None,
            jump: Some(*to as usize),
        },
        Instr::JumpZero(to) | Instr::AndTest(to) | Instr::OrTest(to) => Onward {
            next,
            jump: Some(*to as usize),
        },
        Instr::Return | Instr::Advance(_) => Onward {
            next: None,
            jump: None,
        },
        _ => Onward { next, jump: None },
    }
}

/// The same for the instruction at a place of the code.
pub fn goes_on_at(instrs: &[Instr], place: usize) -> Onward
    requires { place < length instrs.now }
    ensures { (i : Instruction) → slice_get instrs.now place ≡ Some i → result ≡ onward_of i place }
{
    goes_on(&instrs[place], place, instrs.len())
}

/// So many marks, none of them set.
pub fn no_marks(alloc: Global, count: usize) -> Result<Items<bool>, Memory>
    ensures { IfOk result (λ marks. marks ≡ replicate count false) }
{
    let mut marks = Items::new(alloc);
    for _ in 0..count {
        marks.push(false)?;
    }
    Ok(marks)
}

// Marks a place and lists it, unless it is marked or outside the code.
fn meet(
    instrs: &[Instr],
    starts: &[u32],
    marks: &mut Items<bool>,
    places: &mut Items<usize>,
    place: usize,
) -> Result<(), Memory>
    requires met { AreMet instrs.now starts.now marks.old places.old }
    requires passed { IsPassedFrom instrs.now starts.now place }
    ensures met { OnOk result (AreMet instrs.now starts.now marks.new places.new) }
    ensures there { OnOk result (place < length instrs.now → Contains places.new place) }
    ensures grown { OnOk result (IsGrown places.old places.new) }
{
    if place >= instrs.len() {
        return Ok(());
    }
    let seen = marks.as_slice()[place];
    if seen {
        return Ok(());
    }
    places.push(place)?;
    marks.set(place, true);
    Ok(())
}

// The same for a place where a way may go on, if there is one.
fn meet_some(
    instrs: &[Instr],
    starts: &[u32],
    marks: &mut Items<bool>,
    places: &mut Items<usize>,
    place: Option<usize>,
) -> Result<(), Memory>
    requires met { AreMet instrs.now starts.now marks.old places.old }
    requires passed { (p : ℕ) → Some p ≡ place → IsPassedFrom instrs.now starts.now p }
    ensures met { OnOk result (AreMet instrs.now starts.now marks.new places.new) }
    ensures there { OnOk result ((p : ℕ) → Some p ≡ place → p < length instrs.now → Contains places.new p) }
    ensures grown { OnOk result (IsGrown places.old places.new) }
{
    match place {
        None => Ok(()),
        Some(place) => {
            meet(instrs, starts, marks, places, place)?;
            Ok(())
        }
    }
}

// Meets the places where ways go on from the one of this number.
fn follow(
    instrs: &[Instr],
    starts: &[u32],
    marks: &mut Items<bool>,
    places: &mut Items<usize>,
    at: usize,
) -> Result<(), Memory>
    requires met { AreMet instrs.now starts.now marks.old places.old }
    requires at { at < length places.old }
    ensures met { OnOk result (AreMet instrs.now starts.now marks.new places.new) }
    ensures followed { OnOk result (MayFollow instrs.now places.new (slice_index_or places.old at 0)) }
    ensures grown { OnOk result (IsGrown places.old places.new) }
{
    let place = places.as_slice()[at];
    let to = goes_on_at(instrs, place);
    meet_some(instrs, starts, marks, places, to.next)?;
    meet_some(instrs, starts, marks, places, to.jump)?;
    Ok(())
}

// Meets the places where ways begin.
fn meet_starts(
    instrs: &[Instr],
    starts: &[u32],
    marks: &mut Items<bool>,
    places: &mut Items<usize>,
) -> Result<(), Memory>
    requires met { AreMet instrs.now starts.now marks.old places.old }
    ensures met { OnOk result (AreMet instrs.now starts.now marks.new places.new) }
    ensures begun { OnOk result ((start : ℕ) → Contains starts.now start → start < length instrs.now → Contains places.new start) }
{
    'starts: for start in starts {
        meet(instrs, starts, marks, places, *start as usize)?;
    }
    Ok(())
}

// Takes the marks away that were set when these places were met.
fn unmark(marks: &mut Items<bool>, places: &[usize])
    requires inside { All (λ place. place < length marks.old) places.now }
    requires listed { (place : ℕ) → IsMarkedAt marks.old place → Contains places.now place }
    ensures { marks.new ≡ replicate (length marks.old) false }
{
    'places: for place in places {
        marks.set(*place, false);
    }
}

/// The places of the code that ways from some places pass, each once, in time and memory by their number, and each but the first ones behind
/// one from which a way comes to it: the marks, one for each instruction and none of them set, are left so. The only error is want of memory.
pub fn passed_from(
    alloc: Global,
    instrs: &[Instr],
    starts: &[u32],
    marks: &mut Items<bool>,
) -> Result<Items<usize>, Memory>
    requires clear { marks.old ≡ replicate (length instrs.now) false }
    ensures places { IfOk result (ArePassedFrom instrs.now starts.now) }
    ensures clear { OnOk result (marks.new ≡ replicate (length instrs.now) false) }
{
    let mut places = Items::new(alloc);
    meet_starts(instrs, starts, marks, &mut places)?;
    let mut at = 0;
    'places: while at < places.len() {
        follow(instrs, starts, marks, &mut places, at)?;
        at += 1;
    }
    unmark(marks, places.as_slice());
    Ok(places)
}
