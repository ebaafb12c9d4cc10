//! The sizes of all buffers.

ghost use Rattle.std.specs.Prelude.{◌≡◌, ◌⊎◌, ℕ, List, IfOk, IfErr};
ghost use Rattle.psy_meaning.specs.BufferSizes.{AreSizes};
ghost use Rattle.psy_meaning.specs.Flow.{AreAllNexts};
ghost use Rattle.psy_meaning.specs.KnownWays.{Listed, OfText};
ghost use Rattle.psy_meaning.specs.ListedWays.{AreWaysFor};
ghost use Rattle.psy_meaning.specs.Units.{IsBare, IsOfText};
ghost use Rattle.psy_graph.specs.Graphs.{AreGraphs, AreGraphsBy};
ghost use Rattle.psy_sizes.specs.declared.fault.SizeFault.TheVariants.{Memory as no_memory};
ghost use Rattle.psy_sizes.specs.Faults.{CanCount, IsCause, IsFaultBy};

use crate::fault::SizeFault;
use crate::laws::listed_sizes;
use crate::outboxes::outboxes;
use crate::queues::queues;
use crate::variables::rings;
use psy_base::{Sizes, Ways};
use psy_flow::laws::{listed, one_list};
use psy_flow::ways;
use psy_graph::Graph;
use psy_graph::laws::one_graph;
use psy_tree::Unit;
use std::alloc::Global;

/// The sizes of the buffers of a program by the ways of its actions and the graphs of its agents by these: by variable its ring, by stream its
/// queue, by agent its outbox. Variables are judged first, then streams, in order: `LargeRing` names the first variable whose ring would have
/// more than 65,536 places; `Cells` and `LargeQueue` the first stream for which a table would have more than 4,000,000 cells, or else whose
/// queue would have more than 65,536 places.
pub fn sizes_by(
    alloc: Global,
    unit: &Unit,
    graphs: &[Graph],
    ways: &Ways,
) -> Result<Sizes, SizeFault>
    requires bare { IsBare unit.now }
    requires ways { AreWaysFor unit.now ways.now }
    requires graphs { AreGraphsBy unit.now ways.now.nexts graphs.now }
    ensures sizes { IfOk result (AreSizes unit.now (Listed ways.now) ways.now.nexts) }
    ensures counted { IfOk result (λ _. CanCount unit.now (Listed ways.now) ways.now.nexts) }
    ensures cause { IfErr result (λ fault. (fault ≡ no_memory) ⊎ IsFaultBy unit.now (Listed ways.now) ways.now.nexts fault) }
{
    let rings = rings(alloc, unit, graphs, ways)?;
    let queues = queues(alloc, unit, graphs, ways)?;
    let outboxes = outboxes(alloc, unit, ways)?;
    Ok(Sizes {
        rings,
        queues,
        outboxes,
    })
}

/// The sizes by the ways of the program's statements, with the same refusals.
pub fn sizes(alloc: Global, unit: &Unit, graphs: &[Graph]) -> Result<Sizes, SizeFault>
    requires text { IsOfText unit.now }
    requires graphs { AreGraphs unit.now graphs.now }
    ensures sizes { IfOk result (λ sizes. (nexts : List (List (List ℕ))) → AreAllNexts unit.now nexts → AreSizes unit.now (OfText unit.now) nexts sizes) }
    ensures counted { IfOk result (λ sizes. (nexts : List (List (List ℕ))) → AreAllNexts unit.now nexts → CanCount unit.now (OfText unit.now) nexts) }
    ensures cause { IfErr result (λ fault. (fault ≡ no_memory) ⊎ IsCause unit.now fault) }
{
    one_graph();
    one_list();
    listed();
    listed_sizes();
    let ways = ways(alloc, unit)?;
    sizes_by(alloc, unit, graphs, &ways)
}
