//! One owner's code, judged place by place.

ghost use Rattle.std.specs.Prelude.{◌≡◌, ◌<◌, ◌↔◌, ◌^◌, ◌⊎◌, ℕ, List, false, true, get_or, length, replicate, IfOk, OnOk};
ghost use Rattle.std.specs.List.{Contains};
ghost use Rattle.psy_flow.specs.Heights.{IsHeight};
ghost use Rattle.psy_flow.specs.Owners.{IsReached};
ghost use Rattle.psy_flow.specs.Verified.{HasEnd, Inside};
ghost use Rattle.psy_judge.specs.Deciding.{owner_of};
ghost use Rattle.psy_judge.specs.Highest.{AreStarts, IsEmpty, IsSmall};
ghost use Rattle.psy_judge.specs.Judged.{IsFirst, IsLeast, Judges};
ghost use Rattle.psy_judge.specs.Judging.{AreNeeds, IsEarlier, IsSized, IsTaken, IsThere, IsTop, KeepsFor};
ghost use Rattle.psy_judge.specs.Ending.{AreEnds};
ghost use Rattle.psy_judge.specs.Owned.{AreTaken, IsExplored, fault_of, functions_before};

use crate::climbing::settle;
use crate::fault::{Fault, lesser};
use crate::heights::{Top, top_of};
use crate::needs::Need;
use crate::rules::{first_of, fits_frames, led, level, named, ordered, stays};
use crate::steps::steps_at;
use crate::walked::{goes_on, passed_from};
use crate::whose::{Whose, cells_of, counters_of};
use psy_base::{Items, Memory};
use psy_code::Code;
use psy_tree::Unit;
use std::alloc::Global;

// ---- at a place

// The number of the first rule that the place breaks for an owner which reaches it, if any. It is told whether no earlier owner does, and
// whether a way goes on to an `Advance`.
fn judge_at(
    unit: &Unit,
    code: &Code,
    whose: Whose,
    place: usize,
    top: Top,
    alone: bool,
    needs: &Items<Option<Need>>,
    ends: bool,
) -> Option<u32>
    requires sized { IsSized code.now }
    requires there { IsThere code.now (owner_of whose) }
    requires place { place < length code.now.instrs }
    requires reached { IsReached code.now (owner_of whose) place }
    requires top { IsTop (IsHeight code.now (owner_of whose) place) top }
    requires small { IsSmall (length code.now.instrs) top }
    requires alone { Judges alone (IsTaken code.now (IsEarlier code.now (owner_of whose)) place → ⊥) }
    requires needs { AreNeeds code.now (functions_before code.now (owner_of whose)) needs.now }
    requires ends { Judges ends (HasEnd code.now.instrs place) }
    ensures { IsFirst (KeepsFor unit.now code.now (IsEarlier code.now (owner_of whose)) (owner_of whose) place) result }
{
    let instr = &code.instrs.as_slice()[place];
    let on = steps_at(code, instr, place);
    let count = code.instrs.len();
    let inside = stays(goes_on(instr, place, count), count);
    let cells = cells_of(code, whose);
    let counters = counters_of(code, whose);
    first_of(
        inside,
        alone,
        level(code, needs, whose, instr, on, top),
        fits_frames(code, needs, whose, cells, counters, instr),
        named(unit, code, whose, instr),
        ordered(whose, instr),
        led(code, whose, place, instr, ends),
    )
}

fn fault_of(place: usize, number: Option<u32>) -> Option<Fault>
    requires { place < 2 ^ 32 }
    ensures { result ≡ fault_of place number }
{
    match number {
        None => None,
        Some(number) => Some(Fault {
            number,
            place: place as u32,
        }),
    }
}

// The fault of one of an owner's places, if any.
fn fault_at(
    unit: &Unit,
    code: &Code,
    whose: Whose,
    place: usize,
    row: &[Top],
    taken: &[bool],
    needs: &Items<Option<Need>>,
    ends: &[bool],
) -> Option<Fault>
    requires sized { IsSized code.now }
    requires there { IsThere code.now (owner_of whose) }
    requires place { place < length code.now.instrs }
    requires reached { IsReached code.now (owner_of whose) place }
    requires explored { (places : List ℕ) × IsExplored code.now (owner_of whose) places row.now }
    requires taken { AreTaken code.now (IsEarlier code.now (owner_of whose)) taken.now }
    requires needs { AreNeeds code.now (functions_before code.now (owner_of whose)) needs.now }
    requires ends { AreEnds code.now.instrs ends.now }
    ensures { IsLeast (λ p rule. p ≡ place → KeepsFor unit.now code.now (IsEarlier code.now (owner_of whose)) (owner_of whose) p rule) result }
{
    let top = top_of(row, place);
    let first = judge_at(
        unit,
        code,
        whose,
        place,
        top,
        !taken[place],
        needs,
        ends[place],
    );
    fault_of(place, first)
}

// ---- at all places

// The least fault of an owner's places, if any.
fn fault_of_places(
    unit: &Unit,
    code: &Code,
    whose: Whose,
    places: &[usize],
    row: &[Top],
    taken: &[bool],
    needs: &Items<Option<Need>>,
    ends: &[bool],
) -> Option<Fault>
    requires sized { IsSized code.now }
    requires there { IsThere code.now (owner_of whose) }
    requires explored { IsExplored code.now (owner_of whose) places.now row.now }
    requires taken { AreTaken code.now (IsEarlier code.now (owner_of whose)) taken.now }
    requires needs { AreNeeds code.now (functions_before code.now (owner_of whose)) needs.now }
    requires ends { AreEnds code.now.instrs ends.now }
    ensures { IsLeast (λ p rule. Contains places.now p → KeepsFor unit.now code.now (IsEarlier code.now (owner_of whose)) (owner_of whose) p rule) result }
{
    let mut least = None;
    'places: for place in places {
        least = lesser(
            least,
            fault_at(unit, code, whose, *place, row, taken, needs, ends),
        );
    }
    least
}

// The fault of one place where an owner begins, if it isn't in the code.
fn fault_of_start(start: u32, count: usize) -> Option<Fault>
    ensures { IsLeast (λ p rule. p ≡ start → rule ≡ Inside → p < count) result }
{
    if (start as usize) < count {
        return None;
    }
    Some(Fault {
        number: 1,
        place: start,
    })
}

// The least fault of the places where an owner begins, if any.
fn fault_of_starts(starts: &[u32], count: usize) -> Option<Fault>
    ensures { IsLeast (λ p rule. Contains starts.now p → rule ≡ Inside → p < count) result }
{
    let mut least = None;
    'starts: for start in starts {
        least = lesser(least, fault_of_start(*start, count));
    }
    least
}

/// The least fault of an owner, if any, where those before it are judged.
pub fn fault_of_owner(
    unit: &Unit,
    code: &Code,
    whose: Whose,
    starts: &[u32],
    places: &[usize],
    row: &[Top],
    taken: &[bool],
    needs: &Items<Option<Need>>,
    ends: &[bool],
) -> Option<Fault>
    requires sized { IsSized code.now }
    requires there { IsThere code.now (owner_of whose) }
    requires starts { AreStarts code.now (owner_of whose) starts.now }
    requires explored { IsExplored code.now (owner_of whose) places.now row.now }
    requires taken { AreTaken code.now (IsEarlier code.now (owner_of whose)) taken.now }
    requires needs { AreNeeds code.now (functions_before code.now (owner_of whose)) needs.now }
    requires ends { AreEnds code.now.instrs ends.now }
    ensures { IsLeast (KeepsFor unit.now code.now (IsEarlier code.now (owner_of whose)) (owner_of whose)) result }
{
    let begun = fault_of_starts(starts, code.instrs.len());
    let passed = fault_of_places(unit, code, whose, places, row, taken, needs, ends);
    lesser(begun, passed)
}

// ---- places and tops

/// The places that an owner reaches, which begins at these starts, and their tops in the row. The marks are left as they were, none of them set.
/// The only error is want of memory.
pub fn explore(
    alloc: Global,
    code: &Code,
    whose: Whose,
    starts: &[u32],
    marks: &mut Items<bool>,
    row: &mut Items<Top>,
) -> Result<Items<usize>, Memory>
    requires sized { IsSized code.now }
    requires starts { AreStarts code.now (owner_of whose) starts.now }
    requires clear { marks.old ≡ replicate (length code.now.instrs) false }
    requires empty { IsEmpty (length code.now.instrs) row.old }
    ensures clear { OnOk result (marks.new ≡ replicate (length code.now.instrs) false) }
    ensures explored { IfOk result (λ places. IsExplored code.now (owner_of whose) places row.new) }
{
    let places = passed_from(alloc, code.instrs.as_slice(), starts, marks)?;
    settle(alloc, code, starts, places.as_slice(), row)?;
    Ok(places)
}

/// Marks the places of an owner as taken.
pub fn take_all(code: &Code, places: &[usize], taken: &mut Items<bool>)
    requires inside { (place : ℕ) → Contains places.now place → place < length code.now.instrs }
    requires size { length taken.old ≡ length code.now.instrs }
    ensures size { length taken.new ≡ length code.now.instrs }
    ensures each { (place : ℕ) → place < length code.now.instrs
        → get_or taken.new place false ≡ true ↔ ((get_or taken.old place false ≡ true) ⊎ Contains places.now place) }
{
    'places: for place in places {
        taken.set(*place, true);
    }
}
