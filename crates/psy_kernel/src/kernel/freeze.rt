//! What a run leaves that is done.
ghost use Rattle.std.specs.Prelude.{◌≡◌, ℕ, Err, IfOk, OnOk};
ghost use Rattle.psy_dates.specs.Beginnings.{behind};
ghost use Rattle.psy_history.specs.Resuming.{IsQuiet};
ghost use Rattle.psy_kernel.specs.declared.fault.FreezeFault.TheVariants.{Busy};
ghost use Rattle.psy_kernel.specs.Freezing.{BeginWithFirst, IsFirstBusy, left_by, state_by};
ghost use Rattle.psy_kernel.specs.Progress.{stage_of, system};
ghost use Rattle.psy_kernel.specs.Resuming.{HasShapeOf};

use super::Kernel;
use crate::fault::FreezeFault;
use crate::stage::Stage;
use psy_dates::Opening;
use std::alloc::Global;

impl Kernel {
    /// The one state of what a run leaves that is done, which another run may go on from. Busy comes exactly where the last date isn't quiet, with
    /// the first agent whose action is under way there.
    pub fn freeze(&self, alloc: Global) -> Result<Opening, FreezeFault>
        requires over { stage_of self.now ≡ Stage.Over }
        ensures quiet { OnOk result (IsQuiet (system self.now) self.now.plan.until) }
        ensures busy { (agent : ℕ) → result ≡ Err (Busy agent) → IsFirstBusy (system self.now) self.now.plan.until agent }
        ensures shape { IfOk result (HasShapeOf self.now.plan) }
        ensures state { IfOk result (λ opening. opening ≡ state_by self.now.plan (left_by self.now)) }
        ensures opened { BeginWithFirst self.now.plan → IfOk result (λ opening. behind self.now.plan opening ≡ left_by self.now) }
    {
        self.engine.freeze(alloc)
    }
}
