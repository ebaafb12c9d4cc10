//! What the rules say of an instruction of an agent or of a function.

ghost use Rattle.std.specs.Prelude.{◌≡◌, ◌≤◌, ◌<◌, ◌+◌, ◌*◌, ◌^◌, ℕ, length, nat_le, nat_lt, slice_get, Some, ◌&&◌};
ghost use Rattle.psy_base.specs.declared.limits.TheConstants.{AFTER};
ghost use Rattle.psy_judge.specs.declared.heights.Top.TheVariants.{One};
ghost use Rattle.psy_judge.specs.Deciding.{
  call_fits,
  called,
  finds_by,
  finds_on,
  first_of,
  framed_by,
  frames_fit,
  held_by,
  hears_by,
  is_deep,
  is_heard,
  is_number,
  is_owned,
  leads_by,
  led_by,
  level_by,
  balanced_by,
  lies_in,
  may_do,
  named_by,
  need_at,
  need_fits,
  ordered_by,
  owner_of,
  owns_by,
  stack_fits,
  stays_by,
  use_fits,
  used_by,
};
ghost use Rattle.psy_flow.specs.Needs as spec_needs;
ghost use Rattle.psy_flow.specs.Owners.{function_code_at};
ghost use Rattle.psy_judge.specs.Judging.{IsSized, IsThere};
ghost use Rattle.psy_meaning.specs.CodeWays.{agent_code_at};

use crate::heights::Top;
use crate::needs::Need;
use crate::steps::{Step, Steps};
use crate::walked::Onward;
use crate::whose::{Whose, cells_of, counters_of};
use psy_base::Items;
use psy_base::limits::AFTER;
use psy_code::{Code, Instr};
use psy_tree::{StreamDecl, Unit, VarDecl};

// ---- places

fn lies_in(place: Option<usize>, count: usize) -> bool
    ensures { result ≡ lies_in place count }
{
    match place {
        None => true,
        Some(place) => place < count,
    }
}

/// Whether each place where a way goes on is one of the first so many.
pub fn stays(to: Onward, count: usize) -> bool
    ensures { result ≡ stays_by to count }
{
    lies_in(to.next, count) && lies_in(to.jump, count)
}

// ---- heights

fn finds_on(step: Option<Step>, height: u64) -> bool
    ensures { result ≡ finds_on step height }
{
    match step {
        None => true,
        Some(step) => step.pops <= height,
    }
}

fn finds(instr: &Instr, on: Steps, height: u64) -> bool
    ensures { result ≡ finds_by instr.now on height }
{
    match instr {
        Instr::Return => height == 1,
        Instr::Advance(_) => height == 0,
        _ => finds_on(on.next, height) && finds_on(on.jump, height),
    }
}

/// Whether there is one height at most, at which the instruction finds what it pops.
pub fn balanced(instr: &Instr, on: Steps, top: Top) -> bool
    ensures { result ≡ balanced_by instr.now on top }
{
    match top {
        Top::Nothing => true,
        Top::One(height) => finds(instr, on, height),
        _ => false,
    }
}

/// The function that is called, if it is a call.
pub fn called(instr: &Instr) -> Option<u32>
    ensures { result ≡ called instr.now }
{
    match instr {
        Instr::Call(function) => Some(*function),
        _ => None,
    }
}

/// What the function of this number needs, if it is counted.
pub fn need_at(needs: &Items<Option<Need>>, function: u32) -> Option<Need>
    ensures { result ≡ need_at needs.now function }
{
    match needs.get(function as usize) {
        None => None,
        Some(need) => *need,
    }
}

/// How many parameters the function of this number has.
pub fn params_of(code: &Code, function: u32) -> u64
    ensures { result ≡ (function_code_at code.now function).params }
{
    match code.functions.get(function as usize) {
        None => 0,
        Some(function) => function.params as u64,
    }
}

fn need_fits(need: Option<Need>, left: u64, stack: u32) -> bool
    requires left { left < 2 ^ 62 }
    requires need { (some : Need) → Some some ≡ need → some.held < 2 ^ 62 }
    ensures { result ≡ need_fits need left stack }
{
    match need {
        None => true,
        Some(need) => left + need.held <= stack as u64,
    }
}

fn call_fits(
    code: &Code,
    needs: &Items<Option<Need>>,
    stack: u32,
    function: Option<u32>,
    height: u64,
) -> bool
    requires height { height < 2 ^ 62 }
    requires needs { (number : ℕ) (need : Need) → Some need ≡ need_at needs.now number → need.held < 2 ^ 62 }
    ensures { result ≡ call_fits code.now needs.now stack function height }
{
    match function {
        None => true,
        Some(function) => {
            let left = height.saturating_sub(params_of(code, function));
            need_fits(need_at(needs, function), left, stack)
        }
    }
}

fn held(code: &Code, needs: &Items<Option<Need>>, whose: Whose, instr: &Instr, height: u64) -> bool
    requires there { IsThere code.now (owner_of whose) }
    requires height { height < 2 ^ 62 }
    requires needs { (function : ℕ) (need : Need) → Some need ≡ need_at needs.now function → need.held < 2 ^ 62 }
    ensures { result ≡ held_by code.now needs.now (owner_of whose) instr.now height }
{
    match whose {
        Whose::Agent(number) => {
            let stack = code.agents.as_slice()[number].stack;
            height <= stack as u64 && call_fits(code, needs, stack, called(instr), height)
        }
        Whose::Function(_) => true,
    }
}

/// Whether there is one height at most, at which the instruction finds what it pops and an agent has room for it and for calls.
pub fn level(
    code: &Code,
    needs: &Items<Option<Need>>,
    whose: Whose,
    instr: &Instr,
    on: Steps,
    top: Top,
) -> bool
    requires there { IsThere code.now (owner_of whose) }
    requires top { (height : ℕ) → top ≡ One height → height < 2 ^ 62 }
    requires needs { (function : ℕ) (need : Need) → Some need ≡ need_at needs.now function → need.held < 2 ^ 62 }
    ensures { result ≡ level_by code.now needs.now (owner_of whose) instr.now on top }
{
    match top {
        Top::Nothing => true,
        Top::One(height) => finds(instr, on, height) && held(code, needs, whose, instr, height),
        _ => false,
    }
}

// ---- frames

fn framed(cells: u64, counters: u32, instr: &Instr) -> bool
    ensures { result ≡ framed_by cells counters instr.now }
{
    match instr {
        Instr::Load(cell) | Instr::Store(cell) => (*cell as u64) < cells,
        Instr::LoadCell { base, cells: count } | Instr::StoreCell { base, cells: count } => {
            *base as u64 + *count as u64 <= cells
        }
        Instr::Zero(counter) | Instr::Guard { counter, .. } => *counter < counters,
        _ => true,
    }
}

fn use_fits(need: Option<Need>, frames: u32) -> bool
    ensures { result ≡ use_fits need frames }
{
    match need {
        None => true,
        Some(need) => need.used <= frames as u64,
    }
}

fn frames_fit(needs: &Items<Option<Need>>, frames: u32, function: Option<u32>) -> bool
    ensures { result ≡ frames_fit needs.now frames function }
{
    match function {
        None => true,
        Some(function) => use_fits(need_at(needs, function), frames),
    }
}

fn used(code: &Code, needs: &Items<Option<Need>>, whose: Whose, instr: &Instr) -> bool
    requires there { IsThere code.now (owner_of whose) }
    ensures { result ≡ used_by code.now needs.now (owner_of whose) instr.now }
{
    match whose {
        Whose::Agent(number) => frames_fit(
            needs,
            code.agents.as_slice()[number].frames,
            called(instr),
        ),
        Whose::Function(_) => true,
    }
}

/// Whether its cells and its counter lie in a frame of so many, and an agent has room for the frames of a call.
pub fn fits_frames(
    code: &Code,
    needs: &Items<Option<Need>>,
    whose: Whose,
    cells: u64,
    counters: u32,
    instr: &Instr,
) -> bool
    requires there { IsThere code.now (owner_of whose) }
    ensures { result ≡ (framed_by cells counters instr.now && used_by code.now needs.now (owner_of whose) instr.now) }
{
    framed(cells, counters, instr) && used(code, needs, whose, instr)
}

// ---- names

fn is_number(some: Option<u32>, number: usize) -> bool
    ensures { result ≡ is_number some number }
{
    match some {
        None => false,
        Some(n) => n as usize == number,
    }
}

fn owns(unit: &Unit, whose: Whose, variable: u32) -> bool
    ensures { result ≡ owns_by unit.now (owner_of whose) variable }
{
    match whose {
        Whose::Agent(number) => match unit.variables.get(variable as usize) {
            None => false,
            Some(decl) => is_number(decl.owner, number),
        },
        Whose::Function(_) => (variable as usize) < unit.variables.len(),
    }
}

fn hears(unit: &Unit, whose: Whose, stream: u32) -> bool
    ensures { result ≡ hears_by unit.now (owner_of whose) stream }
{
    match whose {
        Whose::Agent(number) => match unit.streams.get(stream as usize) {
            None => false,
            Some(decl) => decl.receiver as usize == number,
        },
        Whose::Function(_) => (stream as usize) < unit.streams.len(),
    }
}

fn is_deep(unit: &Unit, variable: u32, back: u32) -> bool
    ensures { result ≡ is_deep (slice_get unit.now.variables variable) back }
{
    match unit.variables.get(variable as usize) {
        None => false,
        Some(decl) => back < decl.depth,
    }
}

fn may_send(unit: &Unit, stream: u32, after: u32, clock: u32) -> bool
    ensures { result ≡ (nat_lt stream (length unit.now.streams) && (nat_lt clock (length unit.now.clocks) && nat_le after AFTER)) }
{
    (stream as usize) < unit.streams.len()
        && ((clock as usize) < unit.clocks.len() && after <= AFTER)
}

/// Whether what it names is there.
pub fn named(unit: &Unit, code: &Code, whose: Whose, instr: &Instr) -> bool
    ensures { result ≡ named_by unit.now code.now (owner_of whose) instr.now }
{
    match instr {
        Instr::LoadCopy(variable) | Instr::StoreCopy(variable) => owns(unit, whose, *variable),
        Instr::Past { variable, back } => is_deep(unit, *variable, *back),
        Instr::Ready(stream) | Instr::Take(stream) => hears(unit, whose, *stream),
        Instr::Send {
            stream,
            after,
            clock,
        } => may_send(unit, *stream, *after, *clock),
        Instr::Call(function) => (*function as usize) < code.functions.len(),
        _ => true,
    }
}

// ---- order and points

fn may_do(number: usize, instr: &Instr) -> bool
    ensures { result ≡ may_do number instr.now }
{
    match instr {
        Instr::Call(function) => (*function as usize) < number,
        Instr::LoadCopy(_)
        | Instr::StoreCopy(_)
        | Instr::Past { .. }
        | Instr::Ready(_)
        | Instr::Take(_)
        | Instr::Send { .. }
        | Instr::Advance(_) => false,
        _ => true,
    }
}

/// Whether a function calls those above it, and asks nothing of the world.
pub fn ordered(whose: Whose, instr: &Instr) -> bool
    ensures { result ≡ ordered_by (owner_of whose) instr.now }
{
    match whose {
        Whose::Agent(_) => true,
        Whose::Function(number) => may_do(number, instr),
    }
}

fn is_place(points: &Items<u32>, point: u32, place: usize) -> bool
    requires place { place < 2 ^ 32 }
    ensures { result ≡ is_number (slice_get points.now point) (place + 1) }
{
    match points.get(point as usize) {
        None => false,
        Some(at) => *at as usize == place + 1,
    }
}

fn leads(points: &Items<u32>, place: usize, instr: &Instr) -> bool
    requires place { place < 2 ^ 32 }
    ensures { result ≡ leads_by points.now place instr.now }
{
    match instr {
        Instr::Advance(point) => 1 <= *point && is_place(points, *point, place),
        _ => true,
    }
}

/// Whether an agent's `Advance` leads to its point at the next place, and a way goes on to one.
pub fn led(code: &Code, whose: Whose, place: usize, instr: &Instr, ends: bool) -> bool
    requires there { IsThere code.now (owner_of whose) }
    requires place { place < 2 ^ 32 }
    ensures { result ≡ led_by code.now (owner_of whose) place instr.now ends }
{
    match whose {
        Whose::Agent(number) => leads(&code.agents.as_slice()[number].points, place, instr) && ends,
        Whose::Function(_) => true,
    }
}

/// The number of the first rule that isn't kept, if any.
pub fn first_of(
    inside: bool,
    alone: bool,
    level: bool,
    framed: bool,
    named: bool,
    ordered: bool,
    led: bool,
) -> Option<u32>
    ensures { result ≡ first_of inside alone level framed named ordered led }
{
    if !inside {
        return Some(1);
    }
    if !alone {
        return Some(2);
    }
    if !level {
        return Some(3);
    }
    if !framed {
        return Some(4);
    }
    if !named {
        return Some(5);
    }
    if !ordered {
        return Some(6);
    }
    if !led {
        return Some(7);
    }
    None
}
