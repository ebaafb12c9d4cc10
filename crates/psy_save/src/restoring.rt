//! From bytes to a state that a run may go on from.
ghost use Rattle.std.specs.Prelude.{◌≡◌, ◌≤◌, ℕ, ℤ, List, length, Err, IfOk, None, OnOk, Some};
ghost use Rattle.psy_base.specs.declared.limits.TheConstants.{FILE_BYTES};
ghost use Rattle.psy_budget.specs.declared.charge.Stall.{Stall};
ghost use Rattle.psy_dates.specs.Beginnings.{behind};
ghost use Rattle.psy_dates.specs.Plans.{IsPlan, IsSoundFor};
ghost use Rattle.psy_graph.specs.Graphs.{AreGraphsBy};
ghost use Rattle.psy_kernel.specs.Resuming.{HasShapeOf};
ghost use Rattle.psy_snap.specs.declared.fault.StateFault.TheVariants.{Fault};
ghost use Rattle.psy_snap.specs.Bytes.{spelling};
ghost use Rattle.psy_snap.specs.Faults.{faults_of, least_fault};
ghost use Rattle.psy_snap.specs.Forms.{form_of};
ghost use Rattle.psy_snap.specs.Ranges.{FitsState};
ghost use Rattle.psy_snap.specs.Shapes.{HasForm};

use crate::laws::shaped;
use psy_dates::{Opening, Plan};
use psy_graph::Graph;
use psy_snap::laws::sound;
use psy_snap::{StateFault, read};
use std::alloc::Global;

/// The state that bytes spell, by the plan that is to be run and the graphs of its agents' actions: one that its runs may go on from, with all inputs
/// and every script; or the bytes' first fault, by place, then by number. The only other error is want of memory.
pub fn restore(
    alloc: Global,
    bytes: &[u8],
    plan: &Plan,
    graphs: &[Graph],
) -> Result<Opening, StateFault>
    requires few { length bytes.now ≤ FILE_BYTES }
    requires plan { IsPlan plan.now }
    requires graphs { AreGraphsBy plan.now.unit plan.now.nexts graphs.now }
    ensures spelled { IfOk result (λ state. spelling state ≡ bytes.now) }
    ensures formed { IfOk result (HasForm (form_of plan.now graphs.now)) }
    ensures ranges { IfOk result FitsState }
    ensures faultless { OnOk result (least_fault (faults_of (form_of plan.now graphs.now) bytes.now) ≡ None) }
    ensures fault { (number place : ℕ) → result ≡ Err (Fault number place)
        → least_fault (faults_of (form_of plan.now graphs.now) bytes.now) ≡ Some (record { number = number; place = place }) }
    ensures shape { IfOk result (HasShapeOf plan.now) }
    ensures sound { IfOk result (λ state. (inputs : List (List ℤ)) (stalls : ℕ → List Stall)
        → IsSoundFor plan.now (behind plan.now state) inputs stalls) }
{
    shaped();
    sound();
    read(alloc, bytes, plan, graphs)
}
