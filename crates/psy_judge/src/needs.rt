//! What functions need of the room for operands and for frames.

ghost use Rattle.std.specs.Prelude.{◌≡◌, ◌≤◌, ◌<◌, ◌+◌, ◌*◌, ◌^◌, ℕ, List, get_or, length, Some};
ghost use Rattle.psy_flow.specs.Heights.{IsBalanced};
ghost use Rattle.psy_flow.specs.Needs.{IsCounted, frame_size};
ghost use Rattle.psy_flow.specs.Owners.{Function, IsReached, Owner};
ghost use Rattle.psy_judge.specs.Deciding.{need_at};
ghost use Rattle.psy_judge.specs.Gathering.{IsGathered, after_on, call_held, call_used, held_at, held_with};
ghost use Rattle.psy_judge.specs.Highest.{AreSmall, AreTops};
ghost use Rattle.psy_judge.specs.Judged.{Judges};
ghost use Rattle.psy_judge.specs.Judging.{AreNeeds, AreReached, IsNeedOf, IsSized};
ghost use Rattle.psy_judge.specs.declared.heights.Top.TheVariants.{One};

use crate::heights::{Top, top_of};
use crate::rules::{balanced, called, need_at, params_of};
use crate::steps::{Step, Steps, steps_at};
use psy_base::Items;
use psy_code::{Code, Instr};

/// What a function and those that it calls take at most.
#[derive(Clone, Copy, Debug)]
pub struct Need {
    /// Operands.
    pub held: u64,
    /// Cells and counters.
    pub used: u64,
}

// ---- whether a function is counted

// Whether the ways of an owner are balanced at a place.
fn balanced_at(code: &Code, place: usize, row: &[Top]) -> bool
    requires place { place < length code.now.instrs }
    requires few { length code.now.instrs < 2 ^ 32 }
    requires count { length row.now ≡ length code.now.instrs }
    ensures { (owner : Owner) → AreTops code.now owner row.now → Judges result (IsBalanced code.now owner place) }
{
    let instr = &code.instrs.as_slice()[place];
    balanced(instr, steps_at(code, instr, place), top_of(row, place))
}

// Whether the function's own ways are balanced at each of its places.
fn is_counted(code: &Code, number: usize, places: &[usize], row: &[Top]) -> bool
    requires few { length code.now.instrs < 2 ^ 32 }
    requires number { number < length code.now.functions }
    requires count { length row.now ≡ length code.now.instrs }
    requires places { AreReached code.now (Function number) places.now }
    requires tops { AreTops code.now (Function number) row.now }
    ensures { Judges result (IsCounted code.now number) }
{
    'places: for place in places {
        if !balanced_at(code, *place, row) {
            return false;
        }
    }
    true
}

// ---- at a place

fn after_on(step: Option<Step>, height: u64) -> u64
    requires height { height < 2 ^ 62 }
    requires one { (some : Step) → Some some ≡ step → some.pushes < 2 ^ 62 }
    ensures { result ≡ after_on step height }
{
    match step {
        None => 0,
        Some(step) => height.saturating_sub(step.pops) + step.pushes,
    }
}

fn call_held(code: &Code, needs: &Items<Option<Need>>, function: Option<u32>, height: u64) -> u64
    requires height { height < 2 ^ 62 }
    requires needs { (number : ℕ) (need : Need) → Some need ≡ need_at needs.now number → need.held < 2 ^ 62 }
    ensures { result ≡ call_held code.now needs.now function height }
{
    match function {
        None => 0,
        Some(function) => match need_at(needs, function) {
            None => 0,
            Some(need) => height.saturating_sub(params_of(code, function)) + need.held,
        },
    }
}

// The most that is held at the place, behind it, and in a call there.
fn held_at(code: &Code, needs: &Items<Option<Need>>, instr: &Instr, on: Steps, height: u64) -> u64
    requires height { height < 2 ^ 62 }
    requires next { (some : Step) → Some some ≡ on.next → some.pushes < 2 ^ 62 }
    requires jump { (some : Step) → Some some ≡ on.jump → some.pushes < 2 ^ 62 }
    requires needs { (function : ℕ) (need : Need) → Some need ≡ need_at needs.now function → need.held < 2 ^ 62 }
    ensures { result ≡ held_at code.now needs.now instr.now on height }
{
    let behind = after_on(on.next, height).max(after_on(on.jump, height));
    height.max(behind.max(call_held(code, needs, called(instr), height)))
}

// The greater of what is known and what is held at a place where all ways have one height.
fn held_with(
    code: &Code,
    needs: &Items<Option<Need>>,
    instr: &Instr,
    on: Steps,
    top: Top,
    held: u64,
) -> u64
    requires top { (height : ℕ) → top ≡ One height → height < 2 ^ 62 }
    requires next { (some : Step) → Some some ≡ on.next → some.pushes < 2 ^ 62 }
    requires jump { (some : Step) → Some some ≡ on.jump → some.pushes < 2 ^ 62 }
    requires needs { (function : ℕ) (need : Need) → Some need ≡ need_at needs.now function → need.held < 2 ^ 62 }
    ensures { result ≡ held_with code.now needs.now instr.now on top held }
{
    match top {
        Top::One(height) => held.max(held_at(code, needs, instr, on, height)),
        _ => held,
    }
}

fn call_used(needs: &Items<Option<Need>>, function: Option<u32>) -> u64
    ensures { result ≡ call_used needs.now function }
{
    match function {
        None => 0,
        Some(function) => match need_at(needs, function) {
            None => 0,
            Some(need) => need.used,
        },
    }
}

// ---- of a function

// The greater of what is known and what the place needs.
fn with_place(
    code: &Code,
    number: usize,
    needs: &Items<Option<Need>>,
    place: usize,
    row: &[Top],
    need: Need,
) -> Need
    requires sized { IsSized code.now }
    requires number { number < length code.now.functions }
    requires needs { AreNeeds code.now number needs.now }
    requires counted { IsCounted code.now number }
    requires count { length row.now ≡ length code.now.instrs }
    requires small { AreSmall (length code.now.instrs) row.now }
    requires tops { AreTops code.now (Function number) row.now }
    requires place { place < length code.now.instrs }
    requires reached { IsReached code.now (Function number) place }
    ensures { (places : List ℕ) (at : ℕ) → place ≡ get_or places at 0 → IsGathered code.now number places at need
        → IsGathered code.now number places (at + 1) result }
{
    let instr = &code.instrs.as_slice()[place];
    let on = steps_at(code, instr, place);
    let top = top_of(row, place);
    let held = held_with(code, needs, instr, on, top, need.held);
    let used = need.used.max(call_used(needs, called(instr)));
    Need { held, used }
}

// What all places need, but the function's own frame.
fn gather(
    code: &Code,
    number: usize,
    needs: &Items<Option<Need>>,
    places: &[usize],
    row: &[Top],
) -> Need
    requires sized { IsSized code.now }
    requires number { number < length code.now.functions }
    requires needs { AreNeeds code.now number needs.now }
    requires counted { IsCounted code.now number }
    requires count { length row.now ≡ length code.now.instrs }
    requires small { AreSmall (length code.now.instrs) row.now }
    requires tops { AreTops code.now (Function number) row.now }
    requires places { AreReached code.now (Function number) places.now }
    ensures { IsGathered code.now number places.now (length places.now) result }
{
    let mut need = Need { held: 0, used: 0 };
    'places: for place in places {
        need = with_place(code, number, needs, *place, row, need);
    }
    need
}

// How many cells and counters the frame of a function has.
fn frame_size(code: &Code, number: usize) -> u64
    requires sized { IsSized code.now }
    requires number { number < length code.now.functions }
    ensures size { result ≡ frame_size code.now number }
    ensures few { result < 2 ^ 34 }
{
    let function = &code.functions.as_slice()[number];
    function.params as u64 + function.locals.len() as u64 + function.counters as u64
}

/// What the function of this number needs, if it is counted, where the needs of those before it are known.
pub fn need_of(
    code: &Code,
    number: usize,
    needs: &Items<Option<Need>>,
    places: &[usize],
    row: &[Top],
) -> Option<Need>
    requires sized { IsSized code.now }
    requires number { number < length code.now.functions }
    requires needs { AreNeeds code.now number needs.now }
    requires count { length row.now ≡ length code.now.instrs }
    requires small { AreSmall (length code.now.instrs) row.now }
    requires tops { AreTops code.now (Function number) row.now }
    requires places { AreReached code.now (Function number) places.now }
    ensures { IsNeedOf code.now number result }
{
    if !is_counted(code, number, places, row) {
        return None;
    }
    let need = gather(code, number, needs, places, row);
    Some(Need {
        held: need.held,
        used: frame_size(code, number) + need.used,
    })
}
