//! From a run that is done to the bytes of its state.
ghost use Rattle.std.specs.Prelude.{◌≡◌, ◌<◌, ◌≤◌, ℕ, length, Err, IfOk, OnOk};
ghost use Rattle.psy_base.specs.declared.limits.TheConstants.{FILE_BYTES};
ghost use Rattle.psy_history.specs.Resuming.{IsQuiet};
ghost use Rattle.psy_kernel.specs.declared.stage.Stage.TheVariants.{Over};
ghost use Rattle.psy_kernel.specs.Freezing.{IsFirstBusy, left_by, state_by};
ghost use Rattle.psy_kernel.specs.Progress.{stage_of, system};
ghost use Rattle.psy_save.specs.declared.fault.SaveFault.TheVariants.{Busy, Large};
ghost use Rattle.psy_snap.specs.Bytes.{spelling};

use crate::fault::SaveFault;
use psy_dates::Plan;
use psy_kernel::Kernel;
use psy_snap::spell;
use std::alloc::Global;

// The last date of a plan, a number of 32 bits
fn last_date(plan: &Plan) -> u32
    ensures { result ≡ plan.now.until }
{
    plan.until
}

/// The bytes of the state that a run leaves that is done. Busy comes exactly where its last date isn't quiet, with the first agent whose action is
/// under way there; Large exactly where the date is quiet and the state passes 262,144 bytes, unless memory runs out before.
pub fn save(alloc: Global, kernel: &Kernel) -> Result<Vec<u8>, SaveFault>
    requires over { stage_of kernel.now ≡ Over }
    ensures quiet { OnOk result (IsQuiet (system kernel.now) kernel.now.plan.until) }
    ensures spelled { IfOk result (λ bytes. bytes.items ≡ spelling (state_by kernel.now.plan (left_by kernel.now))) }
    ensures few { IfOk result (λ bytes. length bytes.items ≤ FILE_BYTES) }
    ensures busy { (agent : ℕ) → result ≡ Err (Busy agent) → IsFirstBusy (system kernel.now) kernel.now.plan.until agent }
    ensures large { result ≡ Err Large → IsQuiet (system kernel.now) kernel.now.plan.until
        × (FILE_BYTES < length (spelling (state_by kernel.now.plan (left_by kernel.now)))) }
{
    let _until = last_date(kernel.plan());
    let state = kernel.freeze(alloc)?;
    Ok(spell(alloc, &state)?)
}
