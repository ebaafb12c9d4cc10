//! Laws of saved states, each the contract of a function that does nothing.
ghost use Rattle.std.specs.Prelude.{◌≡◌, ◌≤◌, ◌<◌, ◌*◌, ◌^◌, ℕ, ℤ, List, None};
ghost use Rattle.psy_base.specs.declared.limits.TheConstants.{UNTIL};
ghost use Rattle.psy_budget.specs.declared.charge.Stall.{Stall};
ghost use Rattle.psy_code.specs.declared.code.Code.{Code};
ghost use Rattle.psy_dates.specs.Beginnings.{behind};
ghost use Rattle.psy_dates.specs.declared.opening.Opening.{Opening as State};
ghost use Rattle.psy_dates.specs.declared.plan.Plan.{Plan};
ghost use Rattle.psy_dates.specs.Plans.{IsPlan, IsSoundFor, opened_of};
ghost use Rattle.psy_graph.specs.declared.graph.Graph.{Graph};
ghost use Rattle.psy_graph.specs.Graphs.{AreGraphsBy};
ghost use Rattle.psy_history.specs.Actions.{Opening};
ghost use Rattle.psy_history.specs.Compiled.{AreInputs, IsCompiled, coded, stated};
ghost use Rattle.psy_history.specs.Openings.{IsSound};
ghost use Rattle.psy_history.specs.Resuming.{IsQuiet};
ghost use Rattle.psy_history.specs.Scripts.{IsScript};
ghost use Rattle.psy_kernel.specs.Freezing.{BeginWithFirst, IsFirstBusy, left_by, state_by};
ghost use Rattle.psy_kernel.specs.Progress.{Progress, system};
ghost use Rattle.psy_kernel.specs.Resuming.{HasShapeOf};
ghost use Rattle.psy_meaning.specs.BufferSizes.{AreSizes};
ghost use Rattle.psy_meaning.specs.KnownWays.{OfText};
ghost use Rattle.psy_snap.specs.Bytes.{spelling};
ghost use Rattle.psy_snap.specs.Faults.{faults_of, least_fault};
ghost use Rattle.psy_snap.specs.Forms.{form_of};
ghost use Rattle.psy_snap.specs.Ranges.{FitsState};
ghost use Rattle.psy_snap.specs.Shapes.{HasForm};
ghost use Rattle.psy_tree.specs.declared.unit.Unit.{Unit as Whole};

use psy_graph::laws::one_graph;
use psy_history::laws::{alike, alike_behind, fitting, regular, saved};
use psy_kernel::laws::taken_up;
use psy_snap::laws::faultless;

/// A state that has the form of a plan's has its shape.
pub fn shaped()
    ensures { (plan : Plan) (graphs : List Graph) (state : State) → IsPlan plan → HasForm (form_of plan graphs) state → HasShapeOf plan state }
{}

/// The working copies of code that acts as a program's statements begin with the first values of the variables.
pub fn first_values()
    ensures { (plan : Plan) → IsCompiled plan.unit plan.code plan.nexts → BeginWithFirst plan }
{
    alike_behind();
}

/// A date is quiet in the history of a program's statements where it is in that of code that acts as they do; and where it isn't, the first agent is
/// the same whose action is under way.
pub fn quiet_alike()
    ensures quiet { (unit : Whole) (code : Code) (nexts : List (List (List ℕ))) (stalls : ℕ → List Stall) (inputs : List (List ℤ)) (date : ℕ)
        → IsCompiled unit code nexts → AreInputs unit inputs
        → IsQuiet (coded unit code nexts stalls inputs) date → IsQuiet (stated unit nexts stalls inputs) date }
    ensures busy { (unit : Whole) (code : Code) (nexts : List (List (List ℕ))) (stalls : ℕ → List Stall) (inputs : List (List ℤ)) (date agent : ℕ)
        → IsCompiled unit code nexts → AreInputs unit inputs
        → IsFirstBusy (coded unit code nexts stalls inputs) date agent → IsFirstBusy (stated unit nexts stalls inputs) date agent }
{
    alike();
}

/// An opening that a plan's runs may go on from is sound by the ways of the program's statements, where the plan's buffers have the sizes that these
/// ask for.
pub fn by_text()
    ensures { (plan : Plan) (opening : Opening) (inputs : List (List ℤ)) (stalls : ℕ → List Stall) → IsPlan plan
        → AreSizes plan.unit (OfText plan.unit) plan.nexts plan.sizes → IsSoundFor plan opening inputs stalls
        → IsSound (opened_of plan opening inputs stalls) (OfText plan.unit) plan.code }
{
    one_graph();
}

/// The state of what a whole run of code that acts as a program's statements leaves at a quiet date has the form of the states of each plan that runs
/// on to that date or a later one, its numbers are in their ranges, and its bytes are without a fault: so what was saved is never refused.
pub fn kept()
    ensures { (p : Progress) (graphs : List Graph) (until : ℕ) → IsPlan p.plan → AreInputs p.plan.unit p.inputs → IsScript p.plan.unit p.script
        → p.opening ≡ None → BeginWithFirst p.plan → IsCompiled p.plan.unit p.plan.code p.plan.nexts → AreGraphsBy p.plan.unit p.plan.nexts graphs
        → IsQuiet (system p) p.plan.until → p.plan.until ≤ until → p.plan.until ≤ UNTIL → p.plan.until * p.plan.unit.quantum < 2 ^ 50
        → HasForm (form_of (record (p.plan) { until = until }) graphs) (state_by p.plan (left_by p))
        × FitsState (state_by p.plan (left_by p))
        × (least_fault (faults_of (form_of (record (p.plan) { until = until }) graphs) (spelling (state_by p.plan (left_by p)))) ≡ None) }
{
    fitting();
    regular();
    saved();
    one_graph();
    faultless();
    taken_up();
}
