//! The sends on the ways from an agent's points.

ghost use Rattle.std.specs.Prelude.{◌≡◌, ◌+◌, ◌++◌, ◌≤◌, ℕ, false, get_or, length, replicate, IfOk, OnOk};
ghost use Rattle.psy_base.specs.declared.ways.SendWay.{SendWay};
ghost use Rattle.psy_tree.specs.declared.unit.Unit.{Unit as Whole};
ghost use Rattle.psy_meaning.specs.Flow.{IsMostSends};
ghost use Rattle.psy_meaning.specs.ListedWays.{AreSends, IsSendWay};
ghost use Rattle.psy_flow.specs.Agents.{IsOfSome, IsAgentOf};
ghost use Rattle.psy_flow.specs.Listed.{AreLonger, AreOf, AreSendsUpTo, some_way};
ghost use Rattle.psy_flow.specs.Texts.{marked_at, streams_in};

use crate::backwards::counts_of_points;
use crate::gauge::Gauge;
use crate::laws::{known, named, nexts, texts};
use crate::texts::sent_to;
use psy_base::{Items, Memory, SendWay};
use psy_lists::empty_lists;
use psy_tree::AgentDecl;
use std::alloc::Global;

/// A list with this way more, where it has some sends.
pub fn push_some(ways: &mut Items<SendWay>, way: SendWay) -> Result<(), Memory>
    ensures { OnOk result (ways.new ≡ ways.old ++ some_way way) }
{
    if way.most > 0 {
        ways.push(way)?;
    }
    Ok(())
}

// Adds the sends to a stream, on the ways that end at a point, to the list of each point with a count.
fn add_where(
    lists: &mut [Items<SendWay>],
    to: u32,
    stream: u32,
    counts: &[u64],
) -> Result<(), Memory>
    requires { length lists.old ≤ length counts.now }
    ensures as_many { length lists.new ≡ length lists.old }
    ensures longer { OnOk result (AreLonger (λ point. some_way (record { to = to; stream = stream; most = get_or counts.now point 0 })) lists.old lists.new) }
{
    'points: for point in 0..lists.len() {
        let most = counts[point];
        push_some(&mut lists[point], SendWay { to, stream, most })?;
    }
    Ok(())
}

// Adds the sends to a stream, on the ways that end at a point, to the list of each point where such ways begin, by one walk, and by none
// where the text doesn't send to the stream.
fn add_stream(
    alloc: Global,
    lists: &mut [Items<SendWay>],
    agent: &AgentDecl,
    to: u32,
    stream: u32,
    sent: bool,
) -> Result<(), Memory>
    requires text { IsOfSome agent.now }
    requires count { length lists.old ≡ length agent.now.points }
    requires sent { sent ≡ false → (unit : Whole) (number point : ℕ) (way : SendWay) → IsAgentOf unit number agent.now
        → IsSendWay unit.functions agent.now point way → way.stream ≡ stream → ⊥ }
    ensures as_many { length lists.new ≡ length lists.old }
    ensures sends { OnOk result ((unit : Whole) (number : ℕ) → IsAgentOf unit number agent.now
        → AreOf agent.now (λ point. AreSendsUpTo (IsMostSends unit.functions agent.now point) to stream) lists.old
        → AreOf agent.now (λ point. AreSendsUpTo (IsMostSends unit.functions agent.now point) to (stream + 1)) lists.new) }
{
    if !sent {
        return Ok(());
    }
    known();
    let gauge = Gauge::Sends(stream);
    let counts = counts_of_points(alloc, gauge, Some(to), &[], agent.stmts.as_slice())?;
    add_where(lists, to, stream, counts.as_slice())?;
    Ok(())
}

// Adds the sends on the ways that end at a point, behind those of the ways to earlier points.
fn add_sends(
    alloc: Global,
    lists: &mut [Items<SendWay>],
    agent: &AgentDecl,
    to: u32,
    sent: &[bool],
    streams: u32,
) -> Result<(), Memory>
    requires text { IsOfSome agent.now }
    requires count { length lists.old ≡ length agent.now.points }
    requires sent { sent.now ≡ marked_at (replicate streams false) (streams_in agent.now.stmts) }
    ensures as_many { length lists.new ≡ length lists.old }
    ensures sends { OnOk result ((unit : Whole) (number : ℕ) → IsAgentOf unit number agent.now → length unit.streams ≡ streams
        → AreOf agent.now (λ point. AreSendsUpTo (IsMostSends unit.functions agent.now point) to 0) lists.old
        → AreOf agent.now (λ point. AreSendsUpTo (IsMostSends unit.functions agent.now point) (to + 1) 0) lists.new) }
{
    named();
    texts();
    'streams: for stream in 0..streams {
        let names = sent[stream as usize];
        add_stream(alloc, lists, agent, to, stream, names)?;
    }
    Ok(())
}

/// By point of an agent, all sends of the ways from it in order, where the program has so many streams: by one walk through the body for each
/// point where ways may end and each stream to which it sends. The only error is want of memory.
pub fn sends_by_point(
    alloc: Global,
    agent: &AgentDecl,
    streams: u32,
) -> Result<Items<Items<SendWay>>, Memory>
    requires text { IsOfSome agent.now }
    ensures { IfOk result (λ lists. (unit : Whole) (number : ℕ) → IsAgentOf unit number agent.now → length unit.streams ≡ streams
        → AreOf agent.now (AreSends unit.functions agent.now) lists) }
{
    named();
    nexts();
    let sent = sent_to(alloc, agent.stmts.as_slice(), streams as usize)?;
    let mut lists = empty_lists(alloc, agent.points.len())?;
    'points: for to in 1..agent.points.len() as u32 {
        add_sends(
            alloc,
            lists.as_mut_slice(),
            agent,
            to,
            sent.as_slice(),
            streams,
        )?;
    }
    Ok(Items::from_vec(lists))
}
