//! Laws of the definitions, each the contract of a function that does nothing.
ghost use Rattle.std.specs.Prelude.{◌≡◌, ◌+◌, ◌∷◌, ◌<◌, ℕ, ℤ, Err, List, None, Ok, Some, [], length, true};
ghost use Rattle.psy_budget.specs.declared.charge.Stall.{Stall};
ghost use Rattle.psy_dates.specs.declared.opening.Opening.{Opening};
ghost use Rattle.psy_dates.specs.declared.plan.Plan.{Plan};
ghost use Rattle.psy_dates.specs.Beginnings.{agent_in, behind};
ghost use Rattle.psy_dates.specs.Plans.{IsPlan, IsSoundFor};
ghost use Rattle.psy_graph.specs.declared.graph.Graph.{Graph};
ghost use Rattle.psy_graph.specs.Graphs.{AreGraphsBy};
ghost use Rattle.psy_meaning.specs.RingSizes.{agent_timing};
ghost use Rattle.psy_meaning.specs.Timing.{first_date};
ghost use Rattle.psy_snap.specs.declared.fault.ReadError.{ReadError};
ghost use Rattle.psy_snap.specs.declared.fault.ReadError.TheVariants.{Bad};
ghost use Rattle.psy_snap.specs.Bytes.{spelling};
ghost use Rattle.psy_snap.specs.Cuts.{Ask, cut_one, width_of};
ghost use Rattle.psy_snap.specs.Faults.{faults_in, faults_of, least_fault};
ghost use Rattle.psy_snap.specs.Forms.{Form, form_of};
ghost use Rattle.psy_snap.specs.Ranges.{FitsState};
ghost use Rattle.psy_snap.specs.Reading.{field_at};
ghost use Rattle.psy_snap.specs.Rows.{AreFound, agents, fields, messages};
ghost use Rattle.psy_snap.specs.Shapes.{HasForm};

use psy_graph::laws::one_graph;
use psy_sizes::laws::one_size_by;

/// What is read of a field is what is cut of it, and it is good; what can't be read is at fault there.
#[tactic(auto, unfolding(crate::specs::Reading::field_at, crate::specs::Cuts::cut_one))]
pub fn fields_read()
    ensures read { (ask : Ask) (place n : ℕ) (bytes rest : List ℕ) → field_at ask bytes ≡ Ok (n, rest)
        → cut_one ask place bytes
        ≡ record { fields = (record { place = place; value = Some n; good = true }) ∷ []; on = Some (place + width_of ask.long, rest) } }
    ensures refused { (ask : Ask) (place : ℕ) (bytes : List ℕ) (error : ReadError) → field_at ask bytes ≡ Err error → error ≡ Bad 1 (length bytes) }
    ensures faults { (ask : Ask) (place : ℕ) (bytes : List ℕ) (error : ReadError) → field_at ask bytes ≡ Err error
        → faults_in (cut_one ask place bytes).fields ≡ (record { number = 1; place = place }) ∷ [] }
{}

/// States that were worked out by hand, and the least fault of each.
pub fn worked()
    ensures fields { AreFound fields }
    ensures agents { AreFound agents }
    ensures messages { AreFound messages }
{}

/// A state that has the form of a plan's, numbers in their ranges and no fault is one that a run of the plan may go on from.
pub fn sound()
    ensures { (plan : Plan) (graphs : List Graph) (opening : Opening) (inputs : List (List ℤ)) (stalls : ℕ → List Stall)
        → AreGraphsBy plan.unit plan.nexts graphs → HasForm (form_of plan graphs) opening → FitsState opening
        → least_fault (faults_of (form_of plan graphs) (spelling opening)) ≡ None → IsSoundFor plan (behind plan opening) inputs stalls }
{
    one_size_by();
}

/// A state that has the form of a plan's, up to whatever last date, and numbers in their ranges, and behind which a run of the plan may go on, has no
/// fault, where the first dates of its agents that haven't begun lie behind its date.
pub fn faultless()
    ensures { (plan : Plan) (graphs : List Graph) (until : ℕ) (opening : Opening) (inputs : List (List ℤ)) (stalls : ℕ → List Stall) → IsPlan plan
        → AreGraphsBy plan.unit plan.nexts graphs → HasForm (form_of (record plan { until = until }) graphs) opening → FitsState opening
        → ((agent : ℕ) → agent < length plan.unit.agents → (agent_in opening agent).begun ≡ None
        → opening.date < first_date (agent_timing plan.unit plan.nexts agent)) → IsSoundFor plan (behind plan opening) inputs stalls
        → least_fault (faults_of (form_of (record plan { until = until }) graphs) (spelling opening)) ≡ None }
{
    one_graph();
}

/// States of one form and without a fault that are spelled alike are the same.
pub fn distinct()
    ensures { (form : Form) (opening other : Opening) → HasForm form opening → FitsState opening → HasForm form other → FitsState other
        → least_fault (faults_of form (spelling opening)) ≡ None → spelling opening ≡ spelling other → opening ≡ other }
{}
