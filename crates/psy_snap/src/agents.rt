//! The agents.
ghost use Rattle.std.specs.Prelude.{◌≡◌, ◌+◌, ◌<◌, [], IfOk, OnOk, length, map, replicate};
ghost use Rattle.std.specs.Int.{cast_signed, w32, w64};
ghost use Rattle.psy_meaning.specs.CodeWays.{agent_code_at};
ghost use Rattle.psy_meaning.specs.RingSizes.{agent_timing};
ghost use Rattle.psy_meaning.specs.Timing.{first_date};
ghost use Rattle.psy_snap.specs.Cuts.{any_number, cell_of, copies_asks};
ghost use Rattle.psy_snap.specs.Forms.{agent_form, form_of, may_start};
ghost use Rattle.psy_snap.specs.Plans.{IsReadable, slot_of, types_of};
ghost use Rattle.psy_snap.specs.Reading.{Gives, action_at, agent_at, begun_at, cells_at, each_at, is_misplaced, kind_at, said_at, started_at, values_at};
ghost use Rattle.psy_tree.specs.Parts.{agent_at as declared_at};

use crate::fault::ReadError;
use crate::fields::{any, cell_of, long_below, one_of, up_to};
use crate::figures::figures;
use crate::numbers::short_at;
use crate::phases::is_node;
use psy_arith::Width;
use psy_base::Items;
use psy_base::limits::UNTIL;
use psy_dates::{AgentOpening, Begun, NextAction, Plan};
use psy_graph::Graph;
use psy_tree::Slots;
use std::alloc::Global;

/// The type of the slot that a cell is of, where it is one of a slot.
fn slot_of(slots: &[Slots], cell: usize) -> Option<Width>
    ensures { result ≡ slot_of slots.now cell }
{
    let mut left = cell;
    'slots: for slot in slots {
        if left < slot.cells as usize {
            return Some(slot.width);
        }
        left -= slot.cells as usize;
    }
    None
}

/// The type of a cell of an agent.
fn type_of(plan: &Plan, number: usize, cell: usize) -> Option<Width>
    requires plan { IsReadable plan.now }
    requires number { number < length plan.now.unit.agents }
    ensures { result ≡ slot_of (declared_at plan.now.unit number).slots cell }
{
    slot_of(plan.unit.agents.as_slice()[number].slots.as_slice(), cell)
}

/// A cell, behind others.
fn cell<'a>(
    width: Option<Width>,
    cells: &mut Items<i64>,
    bytes: &'a [u8],
) -> Result<&'a [u8], ReadError>
    ensures { Gives (λ rest. (cells.new, rest.now)) result (said_at (cast_signed w64) (cell_of width) cells.old bytes.now) }
{
    let (number, rest) = cell_of(width, bytes)?;
    cells.push(number.cast_signed())?;
    Ok(rest)
}

/// How many cells an agent has.
fn cell_count(plan: &Plan, number: usize) -> usize
    requires plan { IsReadable plan.now }
    requires number { number < length plan.now.unit.agents }
    ensures { result ≡ length (agent_code_at plan.now.code number).cells }
{
    plan.code.agents.as_slice()[number].cells.len()
}

/// The cells of an agent.
fn cells<'a>(
    alloc: Global,
    plan: &Plan,
    number: usize,
    bytes: &'a [u8],
) -> Result<(Items<i64>, &'a [u8]), ReadError>
    requires plan { IsReadable plan.now }
    requires number { number < length plan.now.unit.agents }
    ensures { Gives (λ x. (x.0, x.1.now)) result (cells_at (map cell_of (types_of plan.now number)) [] bytes.now) }
{
    let count = cell_count(plan, number);
    let mut rest = bytes;
    let mut cells = Items::new(alloc);
    'cells: for index in 0..count {
        rest = cell(type_of(plan, number, index), &mut cells, rest)?;
    }
    Ok((cells, rest))
}

/// A value, behind others.
fn value<'a>(values: &mut Items<i32>, bytes: &'a [u8]) -> Result<&'a [u8], ReadError>
    ensures { Gives (λ rest. (values.new, rest.now)) result (said_at (cast_signed w32) any_number values.old bytes.now) }
{
    let (number, rest) = any(bytes)?;
    values.push(number.cast_signed())?;
    Ok(rest)
}

/// So many values.
fn values(alloc: Global, count: usize, bytes: &[u8]) -> Result<(Items<i32>, &[u8]), ReadError>
    ensures { Gives (λ x. (x.0, x.1.now)) result (values_at (replicate count any_number) [] bytes.now) }
{
    let mut rest = bytes;
    let mut values = Items::new(alloc);
    'values: for _ in 0..count {
        rest = value(&mut values, rest)?;
    }
    Ok((values, rest))
}

/// Whether an action of the agent may start at a point at a date.
#[tactic(auto, unfolding(crate::specs::Forms::agent_form))]
fn may_start(plan: &Plan, graphs: &[Graph], number: usize, point: u32, date: u32) -> bool
    requires plan { IsReadable plan.now }
    requires graphs { length graphs.now ≡ length plan.now.unit.agents }
    requires number { number < length plan.now.unit.agents }
    ensures { result ≡ may_start (agent_form plan.now graphs.now number) point date }
{
    let (_, points) = plan.unit.agents.as_slice()[number]
        .points
        .as_slice()
        .split_at(1);
    let nodes = graphs[number].nodes.as_slice();
    is_node(
        plan.unit.clocks.as_slice(),
        points,
        nodes,
        point,
        u64::from(date),
    )
}

/// The date of an agent's first action.
#[tactic(auto, unfolding(crate::specs::Forms::agent_form))]
fn first_date(plan: &Plan, number: usize) -> u32
    requires plan { IsReadable plan.now }
    requires number { number < length plan.now.unit.agents }
    ensures { result ≡ first_date (agent_timing plan.now.unit plan.now.nexts number) }
{
    let clock = plan.unit.agents.as_slice()[number].points.as_slice()[0].clock;
    plan.unit.clocks.as_slice()[clock as usize].first
}

/// An agent of this kind can't be so at the date.
#[tactic(auto, unfolding(crate::specs::Forms::agent_form))]
fn is_misplaced(
    plan: &Plan,
    graphs: &[Graph],
    number: usize,
    date: u32,
    kind: u32,
    point: Option<u32>,
) -> bool
    requires plan { IsReadable plan.now }
    requires graphs { length graphs.now ≡ length plan.now.unit.agents }
    requires number { number < length plan.now.unit.agents }
    ensures { result ≡ is_misplaced (agent_form plan.now graphs.now number) date kind point }
{
    let first = first_date(plan, number);
    if kind == 0 {
        return first <= date;
    }
    if kind != 1 {
        return false;
    }
    match point {
        None => date < first,
        Some(point) => date < first || !may_start(plan, graphs, number, point, date),
    }
}

#[tactic(auto, unfolding(crate::specs::Reading::kind_at))]
fn kind<'a>(
    plan: &Plan,
    graphs: &[Graph],
    number: usize,
    date: u32,
    bytes: &'a [u8],
) -> Result<(u32, &'a [u8]), ReadError>
    requires plan { IsReadable plan.now }
    requires graphs { length graphs.now ≡ length plan.now.unit.agents }
    requires number { number < length plan.now.unit.agents }
    ensures { Gives (λ x. (x.0, x.1.now)) result (kind_at (agent_form plan.now graphs.now number) date bytes.now) }
{
    let (kind, rest) = up_to(2, bytes)?;
    if is_misplaced(plan, graphs, number, date, kind, short_at(bytes, 12)) {
        return Err(ReadError::Bad {
            number: 2,
            left: bytes.len(),
        });
    }
    Ok((kind, rest))
}

/// How many points an agent has.
fn points(plan: &Plan, number: usize) -> u32
    requires plan { IsReadable plan.now }
    requires number { number < length plan.now.unit.agents }
    ensures { result ≡ length (declared_at plan.now.unit number).points }
{
    plan.unit.agents.as_slice()[number].points.len() as u32
}

#[tactic(auto, unfolding(crate::specs::Reading::action_at, crate::specs::Forms::agent_form))]
fn action<'a>(
    alloc: Global,
    plan: &Plan,
    graphs: &[Graph],
    number: usize,
    bytes: &'a [u8],
) -> Result<(NextAction, &'a [u8]), ReadError>
    requires plan { IsReadable plan.now }
    requires number { number < length plan.now.unit.agents }
    ensures { Gives (λ x. (x.0, x.1.now)) result (action_at (agent_form plan.now graphs.now number) bytes.now) }
{
    let (action, rest) = long_below(u64::from(UNTIL) + 1, bytes)?;
    let (point, rest) = one_of(points(plan, number), rest)?;
    let (cells, rest) = cells(alloc, plan, number, rest)?;
    Ok((
        NextAction {
            number: action,
            point,
            cells,
        },
        rest,
    ))
}

fn started<'a>(
    alloc: Global,
    plan: &Plan,
    graphs: &[Graph],
    number: usize,
    kind: u32,
    bytes: &'a [u8],
) -> Result<(Option<NextAction>, &'a [u8]), ReadError>
    requires plan { IsReadable plan.now }
    requires number { number < length plan.now.unit.agents }
    ensures { Gives (λ x. (x.0, x.1.now)) result (started_at (agent_form plan.now graphs.now number) kind bytes.now) }
{
    if kind != 1 {
        return Ok((None, bytes));
    }
    let (action, rest) = action(alloc, plan, graphs, number, bytes)?;
    Ok((Some(action), rest))
}

/// The copies of an agent.
#[tactic(auto, unfolding(crate::specs::Forms::agent_form))]
fn copies<'a>(
    alloc: Global,
    plan: &Plan,
    graphs: &[Graph],
    number: usize,
    bytes: &'a [u8],
) -> Result<(Items<i32>, &'a [u8]), ReadError>
    requires plan { IsReadable plan.now }
    requires number { number < length plan.now.unit.agents }
    ensures { Gives (λ x. (x.0, x.1.now)) result (values_at (copies_asks (agent_form plan.now graphs.now number)) [] bytes.now) }
{
    values(
        alloc,
        plan.code.agents.as_slice()[number].copies.len(),
        bytes,
    )
}

#[tactic(auto, unfolding(crate::specs::Reading::begun_at))]
fn begun<'a>(
    alloc: Global,
    plan: &Plan,
    graphs: &[Graph],
    number: usize,
    kind: u32,
    bytes: &'a [u8],
) -> Result<(Option<Begun>, &'a [u8]), ReadError>
    requires plan { IsReadable plan.now }
    requires number { number < length plan.now.unit.agents }
    ensures { Gives (λ x. (x.0, x.1.now)) result (begun_at (agent_form plan.now graphs.now number) kind bytes.now) }
{
    if kind == 0 {
        return Ok((None, bytes));
    }
    let (action, rest) = started(alloc, plan, graphs, number, kind, bytes)?;
    let (copies, rest) = copies(alloc, plan, graphs, number, rest)?;
    Ok((Some(Begun { copies, action }), rest))
}

#[tactic(auto, unfolding(crate::specs::Reading::agent_at))]
fn agent<'a>(
    alloc: Global,
    plan: &Plan,
    graphs: &[Graph],
    date: u32,
    number: usize,
    agents: &mut Items<AgentOpening>,
    bytes: &'a [u8],
) -> Result<&'a [u8], ReadError>
    requires plan { IsReadable plan.now }
    requires graphs { length graphs.now ≡ length plan.now.unit.agents }
    requires number { number < length plan.now.unit.agents }
    ensures reads { Gives (λ rest. (agents.new, rest.now)) result
        (agent_at date (agent_form plan.now graphs.now number) agents.old bytes.now) }
    ensures more { OnOk result (length agents.new ≡ length agents.old + 1) }
{
    let (kind, rest) = kind(plan, graphs, number, date, bytes)?;
    let (begun, rest) = begun(alloc, plan, graphs, number, kind, rest)?;
    let (count, slack, rest) = figures(rest)?;
    agents.push(AgentOpening {
        begun,
        count,
        slack,
    })?;
    Ok(rest)
}

/// The agents.
pub fn agents<'a>(
    alloc: Global,
    plan: &Plan,
    graphs: &[Graph],
    date: u32,
    bytes: &'a [u8],
) -> Result<(Items<AgentOpening>, &'a [u8]), ReadError>
    requires plan { IsReadable plan.now }
    requires graphs { length graphs.now ≡ length plan.now.unit.agents }
    ensures reads { Gives (λ x. (x.0, x.1.now)) result (each_at (agent_at date) (form_of plan.now graphs.now).agents [] bytes.now) }
    ensures count { IfOk result (λ x. length x.0 ≡ length plan.now.unit.agents) }
{
    let mut rest = bytes;
    let mut agents = Items::new(alloc);
    'agents: for number in 0..plan.unit.agents.len() {
        rest = agent(alloc, plan, graphs, date, number, &mut agents, rest)?;
    }
    Ok((agents, rest))
}
