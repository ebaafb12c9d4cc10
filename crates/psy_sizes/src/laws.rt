//! Laws of the definitions, each the contract of a function that does nothing.

ghost use Rattle.std.specs.Prelude.{◌≡◌, ◌↔◌, ◌⊎◌, ℕ, List};
ghost use Rattle.psy_base.specs.declared.sizes.Sizes.{Sizes};
ghost use Rattle.psy_base.specs.declared.ways.Ways.{Ways};
ghost use Rattle.psy_tree.specs.declared.unit.Unit.{Unit as Whole};
ghost use Rattle.psy_meaning.specs.BufferSizes.{AreSizes};
ghost use Rattle.psy_meaning.specs.Flow.{AreAllNexts};
ghost use Rattle.psy_meaning.specs.KnownWays.{Listed, OfText};
ghost use Rattle.psy_meaning.specs.ListedWays.{AreWaysFor, AreWaysOf};
ghost use Rattle.psy_meaning.specs.Units.{IsBare, IsOfText};
ghost use Rattle.psy_graph.specs.declared.graph.Graph.{Graph};
ghost use Rattle.psy_graph.specs.Graphs.{AreGraphs, AreGraphsBy};
ghost use Rattle.psy_sizes.specs.declared.fault.SizeFault.{SizeFault};
ghost use Rattle.psy_sizes.specs.Faults.{CanCount, IsFaultBy};

use psy_clock::laws::dates;
use psy_flow::laws::{known, listed, looking, same_sizes, sends};
use psy_graph::laws::one_graph;
use psy_window::laws::greatest;

/// The buffers of a program whose agents have graphs have sizes that keep their limits, or a first variable or stream is at fault: one of
/// both, and there is only one such list of sizes and one such fault.
pub fn one_size()
    ensures same { (unit : Whole) (graphs : List Graph) (nexts : List (List (List ℕ))) (sizes others : Sizes) → IsOfText unit → AreGraphs unit graphs
        → AreAllNexts unit nexts → AreSizes unit (OfText unit) nexts sizes → AreSizes unit (OfText unit) nexts others → sizes ≡ others }
    ensures apart { (unit : Whole) (graphs : List Graph) (nexts : List (List (List ℕ))) (sizes : Sizes) (fault : SizeFault) → IsOfText unit
        → AreGraphs unit graphs → AreAllNexts unit nexts → AreSizes unit (OfText unit) nexts sizes → CanCount unit (OfText unit) nexts
        → IsFaultBy unit (OfText unit) nexts fault → ⊥ }
    ensures cause { (unit : Whole) (graphs : List Graph) (nexts : List (List (List ℕ))) (fault other : SizeFault) → IsOfText unit
        → AreGraphs unit graphs → AreAllNexts unit nexts → IsFaultBy unit (OfText unit) nexts fault → IsFaultBy unit (OfText unit) nexts other → fault ≡ other }
    ensures some { (unit : Whole) (graphs : List Graph) (nexts : List (List (List ℕ))) → IsOfText unit → AreGraphs unit graphs → AreAllNexts unit nexts
        → ((sizes : Sizes) × AreSizes unit (OfText unit) nexts sizes × CanCount unit (OfText unit) nexts)
        ⊎ ((fault : SizeFault) × IsFaultBy unit (OfText unit) nexts fault) }
{
    dates();
    known();
    looking();
    sends();
    one_graph();
    greatest();
    listed();
}

/// By ways that are given as lists, which needn't be those of statements, there is one list of sizes at most, one fault at most, and not both.
pub fn one_size_by()
    ensures same { (unit : Whole) (ways : Ways) (graphs : List Graph) (sizes others : Sizes) → IsBare unit → AreWaysFor unit ways
        → AreGraphsBy unit ways.nexts graphs → AreSizes unit (Listed ways) ways.nexts sizes → AreSizes unit (Listed ways) ways.nexts others → sizes ≡ others }
    ensures apart { (unit : Whole) (ways : Ways) (graphs : List Graph) (sizes : Sizes) (fault : SizeFault) → IsBare unit → AreWaysFor unit ways
        → AreGraphsBy unit ways.nexts graphs → AreSizes unit (Listed ways) ways.nexts sizes → CanCount unit (Listed ways) ways.nexts
        → IsFaultBy unit (Listed ways) ways.nexts fault → ⊥ }
    ensures cause { (unit : Whole) (ways : Ways) (graphs : List Graph) (fault other : SizeFault) → IsBare unit → AreWaysFor unit ways
        → AreGraphsBy unit ways.nexts graphs → IsFaultBy unit (Listed ways) ways.nexts fault → IsFaultBy unit (Listed ways) ways.nexts other
        → fault ≡ other }
{
    dates();
    one_graph();
    greatest();
}

/// By the lists of the ways of a program's statements, sizes and faults are those by the statements.
pub fn listed_sizes()
    ensures sizes { (unit : Whole) (ways : Ways) (sizes : Sizes) → IsOfText unit → AreWaysOf unit ways
        → AreSizes unit (Listed ways) ways.nexts sizes ↔ AreSizes unit (OfText unit) ways.nexts sizes }
    ensures counted { (unit : Whole) (ways : Ways) → IsOfText unit → AreWaysOf unit ways → CanCount unit (Listed ways) ways.nexts
        → CanCount unit (OfText unit) ways.nexts }
    ensures faults { (unit : Whole) (ways : Ways) (fault : SizeFault) → IsOfText unit → AreWaysOf unit ways
        → IsFaultBy unit (Listed ways) ways.nexts fault → IsFaultBy unit (OfText unit) ways.nexts fault }
{
    listed();
    same_sizes();
}
