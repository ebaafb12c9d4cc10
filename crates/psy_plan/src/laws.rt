//! Laws of what comes of a text and of a program: it is one thing, and what it says of demand is true.
ghost use Rattle.std.specs.Prelude.{◌≡◌, ℕ, ◌*◌, ◌≤◌, List, length};
ghost use Rattle.psy_base.specs.declared.limits.TheConstants.{FILE_BYTES};
ghost use Rattle.psy_base.specs.declared.ways.Ways.{Ways as WayLists};
ghost use Rattle.psy_demand.specs.Criterion.{edges_of};
ghost use Rattle.psy_graph.specs.declared.graph.Graph.{Graph};
ghost use Rattle.psy_graph.specs.Graphs.{AreGraphs};
ghost use Rattle.psy_meaning.specs.Demand.{AreFeasible, IsOverloadOn};
ghost use Rattle.psy_meaning.specs.ListedWays.{AreWaysFor};
ghost use Rattle.psy_meaning.specs.Units.{IsBare, IsOfText};
ghost use Rattle.psy_rate.specs.declared.line.Rate.{Rate};
ghost use Rattle.psy_rate.specs.Lines.{AreRates};
ghost use Rattle.psy_tree.specs.Parts.{homes};
ghost use Rattle.psy_tree.specs.declared.unit.Unit.{Unit as Whole};
ghost use Rattle.psy_plan.specs.declared.extent.Extent.{Extent};
ghost use Rattle.psy_plan.specs.declared.refusal.Refusal.TheVariants.{Infeasible};
ghost use Rattle.psy_plan.specs.Courses.{IsDecided, IsOne};
ghost use Rattle.psy_plan.specs.Extents.{IsExtent, length_of};
ghost use Rattle.psy_plan.specs.Programs.{IsProgram, translating};
ghost use Rattle.psy_plan.specs.Steps.{costing, graphing};
ghost use Rattle.psy_plan.specs.Supplies.{IsMet, IsSupply, IsSupplyBy, Supply, supplying, supplying_by};

use psy_flow::laws::{costs, nexts};
use psy_graph::laws::one_graph;
use psy_meaning::laws::of_text;
use psy_parse::laws::one_tree;
use psy_rate::laws::{always, horizons, rates};
use psy_rules::laws::one_verdict;
use psy_sizes::laws::{one_size, one_size_by};
use psy_token::laws::one_reading;
use psy_window::laws::greatest;

/// A text comes to one program or one refusal, and not to both; so do a program's graphs and what it needs up to a date, and its costs.
pub fn one_plan()
    ensures program { (bytes : List ℕ) → IsDecided (translating bytes) }
    ensures graphs { (unit : Whole) → IsOfText unit → IsDecided (graphing unit) }
    ensures costs { (unit : Whole) → IsOfText unit → IsDecided (costing unit) }
    ensures supply { (unit : Whole) (until : ℕ) → IsOfText unit → IsDecided (supplying unit until) }
{
    one_reading();
    one_tree();
    one_verdict();
    one_graph();
    costs();
    nexts();
    one_size();
    greatest();
    rates();
    horizons();
}

/// By given ways of its actions a program comes to one list of what it needs at most, or to one refusal, and not to both.
pub fn by_ways()
    ensures { (unit : Whole) (ways : WayLists) (until : ℕ) → IsBare unit → AreWaysFor unit ways → IsOne (supplying_by unit ways until) }
{
    one_size_by();
    rates();
    horizons();
}

/// The program of a text of at most 262,144 bytes is one of a text.
pub fn programs()
    ensures { (bytes : List ℕ) (unit : Whole) → length bytes ≤ FILE_BYTES → IsProgram bytes unit → IsOfText unit }
{
    of_text();
}

/// Up to which length the demand is looked at: what is supplied up to it is supplied up to the last date, and over every length where it is the
/// horizon. The least length over which a processor can't supply the demand, and the least such processor, are the same up to both, and they are
/// what a refusal tells.
pub fn extents()
    ensures met { (unit : Whole) (graphs : List Graph) (lines : List Rate) (until : ℕ) (extent : Extent) → IsOfText unit → AreGraphs unit graphs
        → AreRates (edges_of graphs) lines → IsExtent unit.quantum (homes unit) lines until extent
        → AreFeasible (homes unit) (edges_of graphs) unit.quantum (length_of extent)
        → AreFeasible (homes unit) (edges_of graphs) unit.quantum until × IsMet unit graphs extent }
    ensures passed { (unit : Whole) (graphs : List Graph) (lines : List Rate) (until length processor demand : ℕ) (extent : Extent) → IsOfText unit
        → AreGraphs unit graphs → AreRates (edges_of graphs) lines → IsExtent unit.quantum (homes unit) lines until extent
        → IsOverloadOn (homes unit) (edges_of graphs) unit.quantum until length processor demand
        → IsOverloadOn (homes unit) (edges_of graphs) unit.quantum (length_of extent) length processor demand }
    ensures refused { (unit : Whole) (until length demand supply processor : ℕ) → IsOfText unit
        → (supplying unit until).stops (Infeasible length demand supply processor)
        → (graphs : List Graph) × AreGraphs unit graphs × IsOverloadOn (homes unit) (edges_of graphs) unit.quantum until length processor demand
        × (supply ≡ unit.quantum * length) }
{
    always();
    rates();
    one_graph();
    greatest();
}

/// What a program has that is supplied: its graphs, points, sizes and lines, and processors that supply its demand up to the last date, and over
/// every length where it says so.
pub fn supplies()
    ensures { (unit : Whole) (until : ℕ) (supply : Supply) → IsOfText unit → (supplying unit until).gives supply → IsSupply unit until supply }
{
    extents();
}

/// The same by given ways of its actions.
pub fn supplies_by()
    ensures { (unit : Whole) (ways : WayLists) (until : ℕ) (supply : Supply) → IsBare unit → AreWaysFor unit ways
        → (supplying_by unit ways until).gives supply → IsSupplyBy unit ways until supply }
{
    always();
    rates();
    one_graph();
    greatest();
}
