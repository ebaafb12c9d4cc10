//! What a program needs to be run: its code, the points that follow, and its buffers.
ghost use Rattle.std.specs.Prelude.{◌≡◌};
ghost use Rattle.psy_gen.specs.Emission.{code_of};
ghost use Rattle.psy_graph.specs.Graphs.{AreGraphsBy};
ghost use Rattle.psy_meaning.specs.Alike.{ActsAlike};
ghost use Rattle.psy_meaning.specs.ListedWays.{AreWaysOf};
ghost use Rattle.psy_meaning.specs.Units.{IsOfText};
ghost use Rattle.psy_run.specs.Answer.{supplying};
ghost use Rattle.psy_run.specs.Planned.{IsPlanned};
ghost use Rattle.psy_run.specs.Services.{compiled_plan};
ghost use Rattle.psy_run.specs.Supplies.{supply_of};

use crate::laws::fits;
use crate::supply::Supplied;
use psy_base::Items;
use psy_dates::Plan;
use psy_graph::Graph;
use psy_graph::laws::one_graph;
use psy_history::laws::one_of_them;
use psy_plan::laws::supplies;
use psy_tree::Unit;

/// A plan, and the graphs of its agents' actions.
#[derive(Drop)]
pub struct Drawn {
    pub plan: Plan,
    pub graphs: Items<Graph>,
}

/// The plan of a program that can be run, and whose demand its processors can supply up to a date, with the graphs of its agents' actions.
pub fn drawn_of(unit: Unit, supply: Supplied, until: u32) -> Drawn
    requires text { IsOfText unit }
    requires code { supply.code ≡ code_of unit }
    requires alike { ActsAlike unit supply.code }
    requires ways { AreWaysOf unit supply.ways }
    requires supplied { (supplying unit until).gives (supply_of supply) }
    ensures plan { IsPlanned result.plan }
    ensures is { result.plan ≡ compiled_plan unit supply.ways.nexts supply.sizes until }
    ensures graphs { result.graphs ≡ supply.graphs }
    ensures drawn { AreGraphsBy unit supply.ways.nexts supply.graphs }
{
    one_graph();
    one_of_them();
    supplies();
    fits();
    let ways = supply.ways;
    let plan = Plan {
        unit,
        code: supply.code,
        nexts: ways.nexts,
        sizes: supply.sizes,
        until,
    };
    Drawn {
        plan,
        graphs: supply.graphs,
    }
}

/// The plan of a program that can be run, and whose demand its processors can supply up to a date.
pub fn plan_of(unit: Unit, supply: Supplied, until: u32) -> Plan
    requires text { IsOfText unit }
    requires code { supply.code ≡ code_of unit }
    requires alike { ActsAlike unit supply.code }
    requires ways { AreWaysOf unit supply.ways }
    requires supplied { (supplying unit until).gives (supply_of supply) }
    ensures plan { IsPlanned result }
    ensures its_unit { result.unit ≡ unit }
    ensures its_nexts { result.nexts ≡ supply.ways.nexts }
    ensures its_sizes { result.sizes ≡ supply.sizes }
    ensures its_until { result.until ≡ until }
{
    drawn_of(unit, supply, until).plan
}
