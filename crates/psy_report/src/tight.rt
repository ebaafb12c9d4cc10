//! By processor, the length over which the least is left.
ghost use Rattle.std.specs.Prelude.{◌≡◌, ◌+◌, ◌*◌, ◌^◌, ◌<◌, ◌≤◌, IfOk, get_or, length, nat_lt};
ghost use Rattle.std.specs.List.{All};
ghost use Rattle.psy_base.specs.declared.limits.TheConstants.{AGENTS, PROCESSORS};
ghost use Rattle.psy_meaning.specs.Units.{IsBare};
ghost use Rattle.psy_tree.specs.Parts.{homes};
ghost use Rattle.psy_report.specs.Tightness.{AreListed, AreTightest, IsTightest, demand_of, demand_on};

use crate::measures::at;
use psy_base::{Items, Memory};
use psy_history::{processor_of, processors_of};
use psy_lists::push;
use psy_tree::Unit;
use std::alloc::Global;

// What the list of an agent, which is small, has at a length, where the agent is of this processor; else 0.
fn own_part(unit: &Unit, lists: &[Items<u64>], processor: u32, within: u32, agent: u32) -> u64
    requires listed { AreListed unit.now lists.now }
    requires known { agent < length unit.now.agents }
    ensures part { result ≡ demand_of lists.now (homes unit.now) processor within agent }
    ensures small { result ≤ 2 ^ 50 }
{
    if processor_of(unit, agent) == processor {
        at(lists[agent as usize].as_slice(), within as usize)
    } else {
        0
    }
}

/// The demand on a processor over a length.
pub fn demand(unit: &Unit, lists: &[Items<u64>], processor: u32, within: u32) -> u64
    requires listed { AreListed unit.now lists.now }
    ensures sum { result ≡ demand_on unit.now lists.now processor within }
    ensures small { result ≤ AGENTS * 2 ^ 50 }
{
    let mut sum = 0;
    'agents: for agent in 0..unit.agents.len() as u32 {
        sum += own_part(unit, lists, processor, within, agent);
    }
    sum
}

// A sum that is never too great.
fn sum(first: u64, second: u64) -> u128
    ensures { result ≡ first + second }
{
    u128::from(first) + u128::from(second)
}

// Whether less of a processor's supply is left over a length than over another.
fn is_tighter(unit: &Unit, lists: &[Items<u64>], processor: u32, within: u32, other: u32) -> bool
    requires listed { AreListed unit.now lists.now }
    ensures { result ≡ nat_lt (unit.now.quantum * within + demand_on unit.now lists.now processor other)
        (unit.now.quantum * other + demand_on unit.now lists.now processor within) }
{
    let supply = u64::from(unit.quantum) * u64::from(within);
    let supply_of_other = u64::from(unit.quantum) * u64::from(other);
    let demand_over_other = demand(unit, lists, processor, other);
    sum(supply, demand_over_other) < sum(supply_of_other, demand(unit, lists, processor, within))
}

// The least length, of those from 1 up to this one, over which the least is left of a processor's supply, or the most is missing.
fn tightest(unit: &Unit, lists: &[Items<u64>], processor: u32, top: u32) -> u32
    requires listed { AreListed unit.now lists.now }
    requires some { 1 ≤ top }
    ensures { IsTightest unit.now.quantum (demand_on unit.now lists.now processor) top result }
{
    let mut least = 1;
    'lengths: for before in 1..top {
        if is_tighter(unit, lists, processor, before + 1, least) {
            least = before + 1;
        }
    }
    least
}

/// By processor of a program, that length for the demand of its own agents; none where there is no length. The only error is want of memory.
pub fn tightest_of(
    alloc: Global,
    unit: &Unit,
    lists: &[Items<u64>],
    top: u32,
) -> Result<Items<u32>, Memory>
    requires bare { IsBare unit.now }
    requires listed { AreListed unit.now lists.now }
    ensures tightest { IfOk result (AreTightest unit.now lists.now top) }
    ensures few { IfOk result (λ lengths. length lengths ≤ PROCESSORS) }
{
    let mut lengths = Items::new(alloc);
    if top > 0 {
        'processors: for processor in 0..processors_of(unit) {
            let length = tightest(unit, lists, processor, top);
            push(&mut lengths, length)?;
        }
    }
    Ok(lengths)
}
