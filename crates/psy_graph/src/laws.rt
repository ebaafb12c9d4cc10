//! Laws of the definitions, each the contract of a function that does nothing.

ghost use Rattle.std.specs.Prelude.{◌≡◌, ◌↔◌, ◌⊎◌, ◌<◌, ℕ, List, length};
ghost use Rattle.std.specs.List.{All};
ghost use Rattle.psy_base.specs.declared.edge.Edge.{Edge};
ghost use Rattle.psy_base.specs.declared.ways.Ways.{Ways};
ghost use Rattle.psy_tree.specs.declared.unit.Unit.{Unit as Whole};
ghost use Rattle.psy_meaning.specs.Flow.{AreAllNexts};
ghost use Rattle.psy_meaning.specs.Graph.{Spot, IsGraph};
ghost use Rattle.psy_meaning.specs.ListedWays.{AreWaysFor};
ghost use Rattle.psy_meaning.specs.RingSizes.{agent_timing};
ghost use Rattle.psy_meaning.specs.Units.{IsBare, IsOfText};
ghost use Rattle.psy_window.specs.Windows.{IsEdge};
ghost use Rattle.psy_graph.specs.declared.fault.GraphFault.{GraphFault};
ghost use Rattle.psy_graph.specs.declared.graph.Graph.{Graph};
ghost use Rattle.psy_meaning.specs.Timing.{Timing};
ghost use Rattle.psy_graph.specs.Graphs.{AreGraphs, AreGraphsBy, IsCause, IsCauseBy, IsGraphOf, IsTimed, IsTimingOf};
ghost use Rattle.psy_graph.specs.Near.{IsNear};

use psy_clock::laws::distances;
use psy_flow::laws::{known, nexts};

/// The agents of a text have graphs that keep the limits, or a first agent is at fault: one of both, and there is only one
/// such list of graphs and one such fault. The actions of an agent begin and end in one way, and what begins and ends so has
/// one graph.
pub fn one_graph()
    ensures same { (unit : Whole) (graphs others : List Graph) → IsOfText unit → AreGraphs unit graphs → AreGraphs unit others → graphs ≡ others }
    ensures timing { (unit : Whole) (number : ℕ) (timing other : Timing) → IsTimingOf unit number timing → IsTimingOf unit number other → timing ≡ other }
    ensures graph { (timing : Timing) (spots others : List Spot) (edges more : List Edge) → IsGraph timing spots edges → IsGraph timing others more
        → (spots ≡ others) × (edges ≡ more) }
    ensures apart { (unit : Whole) (graphs : List Graph) (fault : GraphFault) → IsOfText unit → AreGraphs unit graphs → IsCause unit fault → ⊥ }
    ensures cause { (unit : Whole) (fault other : GraphFault) → IsOfText unit → IsCause unit fault → IsCause unit other → fault ≡ other }
    // Edges lead from node to node, an action is due behind its start and by its end, and its budget keeps the limit.
    ensures edges { (unit : Whole) (graphs : List Graph) → IsOfText unit → AreGraphs unit graphs
        → All (λ graph. All (IsEdge (length graph.nodes)) graph.edges) graphs }
    // Its numbers lie near.
    ensures near { (unit : Whole) (graphs : List Graph) → IsOfText unit → AreGraphs unit graphs → All IsNear graphs }
    // By ways of the program or by its statements, its agents' actions begin and end as they may, and so have such edges; and where these
    // points follow each point, the graphs and the faults are the same.
    ensures timed { (unit : Whole) (ways : Ways) (number : ℕ) → IsBare unit → AreWaysFor unit ways → number < length unit.agents
        → IsTimed (agent_timing unit ways.nexts number) }
    ensures of_text { (unit : Whole) (number : ℕ) (timing : Timing) → IsOfText unit → IsTimingOf unit number timing → IsTimed timing }
    ensures fit { (timing : Timing) (graph : Graph) → IsTimed timing → IsGraphOf timing graph → All (IsEdge (length graph.nodes)) graph.edges }
    ensures by_nexts { (unit : Whole) (nexts : List (List (List ℕ))) (graphs : List Graph) → AreAllNexts unit nexts
        → AreGraphs unit graphs ↔ AreGraphsBy unit nexts graphs }
    ensures causes_by_nexts { (unit : Whole) (nexts : List (List (List ℕ))) (fault : GraphFault) → AreAllNexts unit nexts
        → IsCauseBy unit nexts fault → IsCause unit fault }
    ensures some { (unit : Whole) → IsOfText unit → ((graphs : List Graph) × AreGraphs unit graphs) ⊎ ((fault : GraphFault) × IsCause unit fault) }
{
    known();
    nexts();
    distances();
}
