//! The ways of a program's code, as lists.
//!
//! The sends take passes over the places that a point reaches (`settling`) for each point where ways end and each stream to which one of the
//! places sends. No table has more than one cell for each instruction of the code.

ghost use Rattle.std.specs.Prelude.{◌≡◌, ◌<◌, ◌≤◌, ℕ, false, length, replicate, Some, IfOk, OnOk, slice_get};
ghost use Rattle.psy_base.specs.declared.limits.TheConstants.{POINTS, STREAMS};
ghost use Rattle.psy_code.specs.declared.instr.Instr.{Instr as Instruction};
ghost use Rattle.psy_tree.specs.Parts.{agent_at};
ghost use Rattle.psy_meaning.specs.CodeWays.{AreCodeSends, AreCodeWays, CanWalk, HaveAllMosts, IsPassed, NamesThere, budget_of, place_of};
ghost use Rattle.psy_meaning.specs.ListedWays.{AreByPoint, points_of};
ghost use Rattle.psy_meaning.specs.Units.{IsBare};
ghost use Rattle.psy_flow.specs.CodeLists.{HaveMostsFrom, HaveMostsOf};
ghost use Rattle.psy_flow.specs.Listed.{AreOf};
ghost use Rattle.psy_flow.specs.Walks.{ArePassed, StaysIn};

use crate::code_sends::code_sends;
use crate::ends::ends_among;
use crate::next::no_marks;
use crate::paths::{code_paths, zeros};
use crate::point_lists::place_at;
use crate::walks::passed_by_marks;
use psy_base::{Items, Memory, SendWay, Ways};
use psy_code::{Code, Instr};
use psy_lists::push;
use psy_tree::{AgentDecl, Unit};
use std::alloc::Global;

// The places that ways from a place pass, from the last to the first. The marks are left as they were, none of them set.
fn passed_backwards(
    alloc: Global,
    instrs: &[Instr],
    from: usize,
    marks: &mut Items<bool>,
) -> Result<Items<usize>, Memory>
    requires inside { StaysIn instrs.now from }
    requires clear { marks.old ≡ replicate (length instrs.now) false }
    ensures places { IfOk result (ArePassed instrs.now from) }
    ensures clear { OnOk result (marks.new ≡ replicate (length instrs.now) false) }
{
    let places = passed_by_marks(alloc, instrs, &[from], marks)?;
    let mut ordered = Vec::from_slice(alloc, places.as_slice())?;
    ordered.sort_unstable();
    ordered.reverse();
    Ok(Items::from_vec(ordered))
}

// The sends on the ways from a place of an agent's code, where its actions have this budget.
fn sends_from(
    alloc: Global,
    unit: &Unit,
    instrs: &[Instr],
    agent: &AgentDecl,
    from: usize,
    budget: u32,
    marks: &mut Items<bool>,
    row: &mut Items<u64>,
) -> Result<Items<SendWay>, Memory>
    requires inside { StaysIn instrs.now from }
    requires named { (place : ℕ) (i : Instruction) → IsPassed instrs.now from place → slice_get instrs.now place ≡ Some i
        → NamesThere unit.now agent.now i }
    requires points { length agent.now.points ≤ POINTS }
    requires streams { length unit.now.streams ≤ STREAMS }
    requires clear { marks.old ≡ replicate (length instrs.now) false }
    requires count { length row.old ≡ length instrs.now }
    ensures clear { OnOk result (marks.new ≡ replicate (length instrs.now) false) }
    ensures count { length row.new ≡ length instrs.now }
    ensures sends { IfOk result (AreCodeSends instrs.now from budget) }
    ensures judged { IfOk result (λ _. HaveMostsFrom instrs.now from budget (length unit.now.streams)) }
{
    let places = passed_backwards(alloc, instrs, from, marks)?;
    let nexts = ends_among(alloc, instrs, from, places.as_slice(), agent.points.len())?;
    code_sends(
        alloc,
        instrs,
        from,
        places.as_slice(),
        nexts.as_slice(),
        unit.streams.len(),
        budget,
        row,
    )
}

// The budget of a point of an agent.
fn budget_at(unit: &Unit, agent: usize, point: usize) -> u32
    requires agent { agent < length unit.now.agents }
    requires point { point < length (agent_at unit.now agent).points }
    ensures { result ≡ budget_of unit.now agent point }
{
    unit.agents.as_slice()[agent].points.as_slice()[point].budget
}

// By point of the agent of this number, the sends on the ways from it.
fn sends_of(
    alloc: Global,
    unit: &Unit,
    code: &Code,
    number: usize,
    marks: &mut Items<bool>,
    row: &mut Items<u64>,
) -> Result<Items<Items<SendWay>>, Memory>
    requires bare { IsBare unit.now }
    requires walk { CanWalk unit.now code.now }
    requires number { number < length unit.now.agents }
    requires clear { marks.old ≡ replicate (length code.now.instrs) false }
    requires count { length row.old ≡ length code.now.instrs }
    ensures clear { OnOk result (marks.new ≡ replicate (length code.now.instrs) false) }
    ensures count { length row.new ≡ length code.now.instrs }
    ensures sends { IfOk result (AreOf (agent_at unit.now number)
        (λ point. AreCodeSends code.now.instrs (place_of code.now number point) (budget_of unit.now number point))) }
    ensures judged { IfOk result (λ _. HaveMostsOf unit.now code.now number) }
{
    let agent = &unit.agents.as_slice()[number];
    let mut sends = Items::new(alloc);
    'points: for point in 0..agent.points.len() {
        let own = sends_from(
            alloc,
            unit,
            code.instrs.as_slice(),
            agent,
            place_at(code, number, point),
            budget_at(unit, number, point),
            marks,
            row,
        )?;
        push(&mut sends, own)?;
    }
    Ok(sends)
}

// By agent and point, the sends on the ways from it.
fn all_sends(
    alloc: Global,
    unit: &Unit,
    code: &Code,
) -> Result<Items<Items<Items<SendWay>>>, Memory>
    requires bare { IsBare unit.now }
    requires walk { CanWalk unit.now code.now }
    ensures sends { IfOk result (AreByPoint (points_of unit.now)
        (λ agent point. AreCodeSends code.now.instrs (place_of code.now agent point) (budget_of unit.now agent point))) }
    ensures judged { IfOk result (λ _. (agent : ℕ) → agent < length unit.now.agents → HaveMostsOf unit.now code.now agent) }
{
    let mut marks = no_marks(alloc, code.instrs.len())?;
    let mut row = zeros(alloc, code.instrs.len())?;
    let mut sends = Items::new(alloc);
    'agents: for number in 0..unit.agents.len() {
        let own = sends_of(alloc, unit, code, number, &mut marks, &mut row)?;
        push(&mut sends, own)?;
    }
    Ok(sends)
}

/// The ways of a program's actions by its code, whatever the values: from each point of each agent the points where they end, the variables at
/// which they look, and the most sends to each stream on the ways to each of these points, where the budget of the point stands for the most if
/// there is no greatest number of them; and by stream the greatest delay of the sends to it. The only error is want of memory.
pub fn code_ways(alloc: Global, unit: &Unit, code: &Code) -> Result<Ways, Memory>
    requires bare { IsBare unit.now }
    requires walk { CanWalk unit.now code.now }
    ensures ways { IfOk result (AreCodeWays unit.now code.now) }
    ensures judged { IfOk result (λ ways. HaveAllMosts unit.now code.now ways.nexts) }
{
    let paths = code_paths(alloc, unit, code)?;
    let sends = all_sends(alloc, unit, code)?;
    Ok(Ways {
        nexts: paths.nexts,
        looks: paths.looks,
        sends,
        delays: paths.delays,
    })
}
