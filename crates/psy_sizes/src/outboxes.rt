//! The sizes of the outboxes in which agents gather what one action sends.

ghost use Rattle.std.specs.Prelude.{◌<◌, ◌≤◌, [], get_or, length, IfOk};
ghost use Rattle.psy_base.specs.declared.limits.TheConstants.{STREAMS};
ghost use Rattle.psy_base.specs.Extremes.{IsGreatest, IsMost};
ghost use Rattle.psy_meaning.specs.KnownWays.{Listed};
ghost use Rattle.psy_meaning.specs.ListedWays.{AreWaysFor};
ghost use Rattle.psy_meaning.specs.QueueSizes.{AreOutboxes, AreSendsBelow, HasSendsTo};
ghost use Rattle.psy_meaning.specs.Units.{IsBare};
ghost use Rattle.psy_sizes.specs.Sending.{AreCut, HasSendsAmong};

use crate::readings::most;
use psy_base::{Items, Memory, Ways};
use psy_graph::laws::one_graph;
use psy_tree::Unit;
use std::alloc::Global;

/// The most sends to the first so many streams on a way from a point of an agent to another, summed.
fn sends_between(ways: &Ways, agent: u32, from: u32, to: u32, streams: u32) -> u32
    requires agent { agent < length ways.now.sends }
    requires point { from < length (get_or ways.now.sends agent []) }
    requires cut { AreCut ways.now agent }
    requires few { streams ≤ STREAMS }
    ensures { AreSendsBelow (Listed ways.now) agent from to streams result }
{
    let mut sum = 0u32;
    'streams: for stream in 0..streams {
        sum = sum + most(ways, agent, from, to, stream) as u32;
    }
    sum
}

/// The greatest of these sums over the ways from a point to some points.
fn most_among(ways: &Ways, agent: u32, from: u32, nexts: &[u32], streams: u32) -> u32
    requires agent { agent < length ways.now.sends }
    requires point { from < length (get_or ways.now.sends agent []) }
    requires cut { AreCut ways.now agent }
    requires few { streams ≤ STREAMS }
    ensures { IsMost (HasSendsAmong (Listed ways.now) agent streams from nexts.now) result }
{
    let mut greatest = 0u32;
    'nexts: for to in nexts {
        greatest = greatest.max(sends_between(ways, agent, from, *to, streams));
    }
    greatest
}

/// The size of an agent's outbox: the greatest of these sums over its points and their next ones.
fn outbox(unit: &Unit, ways: &Ways, agent: u32) -> u32
    requires bare { IsBare unit.now }
    requires ways { AreWaysFor unit.now ways.now }
    requires agent { agent < length unit.now.agents }
    ensures { IsGreatest (HasSendsTo unit.now (Listed ways.now) ways.now.nexts agent) result }
{
    one_graph();
    let nexts = ways.nexts.as_slice()[agent as usize].as_slice();
    let streams = unit.streams.len() as u32;
    let mut greatest = 0u32;
    'points: for point in 0..nexts.len() {
        greatest = greatest.max(most_among(
            ways,
            agent,
            point as u32,
            nexts[point].as_slice(),
            streams,
        ));
    }
    greatest
}

/// The sizes of the outboxes of all agents, in order: the most messages that one action of the agent sends, each stream's count cut at 65,537.
/// The only error is want of memory.
pub fn outboxes(alloc: Global, unit: &Unit, ways: &Ways) -> Result<Items<u32>, Memory>
    requires bare { IsBare unit.now }
    requires ways { AreWaysFor unit.now ways.now }
    ensures { IfOk result (AreOutboxes unit.now (Listed ways.now) ways.now.nexts) }
{
    let mut sizes = Items::new(alloc);
    'agents: for number in 0..unit.agents.len() {
        sizes.push(outbox(unit, ways, number as u32))?;
    }
    Ok(sizes)
}
