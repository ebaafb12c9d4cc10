//! The points where ways through code end.

ghost use Rattle.std.specs.Prelude.{◌≡◌, ◌<◌, ◌≤◌, ℕ, length, Some, IfOk, slice_get};
ghost use Rattle.std.specs.List.{All, list_any};
ghost use Rattle.psy_base.specs.declared.limits.TheConstants.{POINTS};
ghost use Rattle.psy_code.specs.declared.instr.Instr.TheVariants as instruction;
ghost use Rattle.psy_meaning.specs.CodeWays.{AreCodeNexts, IsPassed};
ghost use Rattle.psy_flow.specs.Reach.{marked};
ghost use Rattle.psy_flow.specs.Walks.{ArePassed, StaysIn, ends_at, ends_there};

use crate::next::{marked_numbers, no_marks};
use crate::reach::mark;
use psy_base::{Items, Memory};
use psy_code::Instr;
use std::alloc::Global;

fn mark_end(reached: &mut Items<bool>, instr: &Instr)
    ensures { reached.new ≡ marked reached.old (ends_at instr.now) }
{
    match instr {
        Instr::Advance(point) => mark(reached, *point),
        _ => {}
    }
}

fn mark_end_at(reached: &mut Items<bool>, instrs: &[Instr], place: usize)
    requires { place < length instrs.now }
    ensures { reached.new ≡ marked reached.old (λ point. ends_there instrs.now point place) }
{
    mark_end(reached, &instrs[place])
}

// Marks the points of the `Advance` instructions at these places.
fn mark_ends(reached: &mut Items<bool>, instrs: &[Instr], places: &[usize])
    requires { All (λ place. place < length instrs.now) places.now }
    ensures { reached.new ≡ marked reached.old (λ point. list_any (ends_there instrs.now point) places.now) }
{
    'places: for place in places {
        mark_end_at(reached, instrs, *place);
    }
}

/// The points where the ways through code from a place end, in rising order, where each of them is one of the first so many, and the places are
/// those that ways from there pass. The only error is want of memory.
pub fn ends_among(
    alloc: Global,
    instrs: &[Instr],
    from: usize,
    places: &[usize],
    points: usize,
) -> Result<Items<u32>, Memory>
    requires inside { StaysIn instrs.now from }
    requires passed { ArePassed instrs.now from places.now }
    requires named { (place point : ℕ) → IsPassed instrs.now from place → slice_get instrs.now place ≡ Some (instruction.Advance point)
        → point < points }
    requires few { points ≤ POINTS }
    ensures { IfOk result (AreCodeNexts instrs.now from) }
{
    let mut reached = no_marks(alloc, points)?;
    mark_ends(&mut reached, instrs, places);
    marked_numbers(alloc, reached.as_slice())
}
