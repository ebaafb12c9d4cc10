//! Where the ways of a program's code end, at what they look, and how long its messages take, as lists.
//!
//! Nothing is walked point by point: what stands on the ways from a place goes back along them as bits, for all places of the code at once, and
//! each point reads its own from its place. No table has more than four cells for each instruction of the code.

ghost use Rattle.std.specs.Prelude.{◌≡◌, ◌<◌, ◌≤◌, ℕ, length, replicate, IfOk};
ghost use Rattle.psy_base.specs.declared.limits.TheConstants.{POINTS};
ghost use Rattle.psy_meaning.specs.CodeWays.{AreCodeDelays, CanWalk};
ghost use Rattle.psy_meaning.specs.Units.{IsBare};
ghost use Rattle.psy_flow.specs.Bits.{AreEndings, IsFoundFrom};
ghost use Rattle.psy_flow.specs.CodeLists.{AreCodePaths, AreFoundLists, most_points};

use crate::code_delays::raise_among;
use crate::found::{endings, found_rows};
use crate::kinds::Sought;
use crate::point_lists::all_numbers;
use crate::starts::starts;
use crate::walks::passed_from;
use psy_base::{Items, Memory};
use psy_code::Code;
use psy_tree::Unit;
use std::alloc::Global;

/// What the ways of a program's code are without what they send.
#[derive(Debug, Drop)]
pub struct Paths {
    /// By agent and point, the points where they end.
    pub nexts: Items<Items<Items<u32>>>,
    /// By agent and point, the variables at which they look.
    pub looks: Items<Items<Items<u32>>>,
    /// By stream, the greatest delay of the sends to it, in ticks.
    pub delays: Items<u64>,
}

// The points or variables on the ways from each point of each agent, where there are none but the first so many.
fn found_lists(
    alloc: Global,
    code: &Code,
    endings: &[u64],
    sought: Sought,
    count: usize,
) -> Result<Items<Items<Items<u32>>>, Memory>
    requires endings { AreEndings code.now.instrs endings.now }
    requires few { count ≤ POINTS }
    ensures { IfOk result (AreFoundLists code.now sought count) }
{
    let rows = found_rows(alloc, code.instrs.as_slice(), endings, sought, count)?;
    all_numbers(alloc, code, rows.as_slice())
}

// How many points the agent with the most of them has.
fn most_points(unit: &Unit) -> usize
    ensures { result ≡ most_points unit.now }
{
    let mut most = 0usize;
    'agents: for agent in unit.agents.as_slice() {
        most = most.max(agent.points.len());
    }
    most
}

/// So many zeros. The only error is want of memory.
pub fn zeros(alloc: Global, count: usize) -> Result<Items<u64>, Memory>
    ensures { IfOk result (λ list. list ≡ replicate count 0) }
{
    Ok(Items::from_vec(vec![in alloc; 0; count]?))
}

// By stream, the greatest delay of the sends to it.
fn code_delays(
    alloc: Global,
    unit: &Unit,
    code: &Code,
    endings: &[u64],
) -> Result<Items<u64>, Memory>
    requires walk { CanWalk unit.now code.now }
    requires endings { AreEndings code.now.instrs endings.now }
    ensures { IfOk result (AreCodeDelays unit.now code.now) }
{
    let starts = starts(alloc, code)?;
    let places = passed_from(alloc, code.instrs.as_slice(), starts.as_slice())?;
    let mut delays = zeros(alloc, unit.streams.len())?;
    raise_among(
        &mut delays,
        unit,
        code.instrs.as_slice(),
        endings,
        places.as_slice(),
    );
    Ok(delays)
}

/// The ways of a program's actions by its code, whatever the values, without what they send: from each point of each agent the points where
/// they end and the variables at which they look; and by stream the greatest delay of the sends to it, in ticks. The only error is want of
/// memory.
pub fn code_paths(alloc: Global, unit: &Unit, code: &Code) -> Result<Paths, Memory>
    requires bare { IsBare unit.now }
    requires walk { CanWalk unit.now code.now }
    ensures { IfOk result (AreCodePaths unit.now code.now) }
{
    let endings = endings(alloc, code.instrs.as_slice())?;
    let nexts = found_lists(
        alloc,
        code,
        endings.as_slice(),
        Sought::Ends,
        most_points(unit),
    )?;
    let looks = found_lists(
        alloc,
        code,
        endings.as_slice(),
        Sought::Looks,
        unit.variables.len(),
    )?;
    let delays = code_delays(alloc, unit, code, endings.as_slice())?;
    Ok(Paths {
        nexts,
        looks,
        delays,
    })
}
