//! The queues of streams.

ghost use Rattle.std.specs.Prelude.{◌≡◌, ◌⊎◌, ℕ, ◌<◌, ◌≤◌, length, IfOk, IfErr};
ghost use Rattle.std.specs.List.{All};
ghost use Rattle.psy_base.specs.declared.limits.TheConstants.{QUEUE};
ghost use Rattle.psy_meaning.specs.KnownWays.{Listed};
ghost use Rattle.psy_meaning.specs.ListedWays.{AreWaysFor};
ghost use Rattle.psy_meaning.specs.QueueSizes.{AreQueues, PassesTable};
ghost use Rattle.psy_meaning.specs.Units.{IsBare};
ghost use Rattle.psy_graph.specs.Graphs.{AreGraphsBy};
ghost use Rattle.psy_sizes.specs.declared.fault.SizeFault.TheVariants.{Memory as no_memory};
ghost use Rattle.psy_sizes.specs.Queues.{IsAtFault, IsKeptQueue, IsQueueFault};

use crate::fault::SizeFault;
use crate::readings::is_sent;
use crate::spreads::spreads;
use crate::tops::top;
use psy_base::limits::QUEUE;
use psy_base::{Items, Ways};
use psy_graph::Graph;
use psy_lists::push;
use psy_tree::Unit;
use std::alloc::Global;

/// The size of the queue of a stream: nothing where nobody sends to it.
fn queue(
    alloc: Global,
    unit: &Unit,
    graphs: &[Graph],
    ways: &Ways,
    stream: u32,
) -> Result<u32, SizeFault>
    requires bare { IsBare unit.now }
    requires ways { AreWaysFor unit.now ways.now }
    requires graphs { AreGraphsBy unit.now ways.now.nexts graphs.now }
    requires stream { stream < length unit.now.streams }
    ensures queue { IfOk result (IsKeptQueue unit.now (Listed ways.now) ways.now.nexts stream) }
    ensures small { IfOk result (λ size. size ≤ QUEUE) }
    ensures cause { IfErr result (λ fault. (fault ≡ no_memory) ⊎ IsAtFault unit.now (Listed ways.now) ways.now.nexts stream fault) }
{
    if !is_sent(ways, stream) {
        return Ok(0);
    }
    let top = top(unit, graphs, ways, stream);
    let size = spreads(alloc, unit, graphs, ways, stream, top)?;
    if size > u64::from(QUEUE) {
        return Err(SizeFault::LargeQueue(stream));
    }
    Ok(size as u32)
}

/// The sizes of the queues of all streams of a program, in order, from the graphs of its agents. `Cells` and `LargeQueue` name
/// the first stream for which a table would have too many cells, or else whose queue would have too many places.
pub fn queues(
    alloc: Global,
    unit: &Unit,
    graphs: &[Graph],
    ways: &Ways,
) -> Result<Items<u32>, SizeFault>
    requires bare { IsBare unit.now }
    requires ways { AreWaysFor unit.now ways.now }
    requires graphs { AreGraphsBy unit.now ways.now.nexts graphs.now }
    ensures queues { IfOk result (AreQueues unit.now (Listed ways.now) ways.now.nexts) }
    ensures small { IfOk result (All (λ size. size ≤ QUEUE)) }
    ensures counted { IfOk result (λ _. (stream : ℕ) → stream < length unit.now.streams → PassesTable unit.now (Listed ways.now) ways.now.nexts stream → ⊥) }
    ensures cause { IfErr result (λ fault. (fault ≡ no_memory) ⊎ IsQueueFault unit.now (Listed ways.now) ways.now.nexts fault) }
{
    let mut sizes = Items::new(alloc);
    'streams: for stream in 0..unit.streams.len() {
        push(&mut sizes, queue(alloc, unit, graphs, ways, stream as u32)?)?;
    }
    Ok(sizes)
}
