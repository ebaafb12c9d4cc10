//! A cycle that is due: its first unit, or all cycles before the next date where nobody acts.
ghost use Rattle.std.specs.Prelude.{◌≡◌, ◌<◌, IsTrue, OnOk};
ghost use Rattle.std.specs.List.{list_all};
ghost use Rattle.psy_collect.specs.Collected.{IsIdle, IsRunning, IsSameRun, steps_left};
ghost use Rattle.psy_collect.specs.Keeping.{rests};
ghost use Rattle.psy_collect.specs.declared.kept.Kept.{Kept as Collected};
ghost use Rattle.psy_dates.specs.declared.seat.Seat.{Seat as Sits};
ghost use Rattle.psy_kernel.specs.declared.stage.Stage.TheVariants.{CycleDue};
ghost use Rattle.psy_kernel.specs.Progress.{stage_of};

use crate::kept::Kept;
use crate::units::keep_unit;
use psy_base::Memory;
use psy_dates::{Phase, Seat};
use psy_history::laws::{fitting, on_time, regular};
use psy_kernel::Kernel;

/// Does the first unit of the cycle that is due, and keeps what it was; where nobody acts, it does all cycles before the next date, which add nothing.
pub fn keep_cycle(kernel: &mut Kernel, kept: &mut Kept, cycle: u64) -> Result<(), Memory>
    requires due { stage_of kernel.old ≡ CycleDue cycle }
    requires running { IsRunning kernel.old kept.old }
    ensures same { IsSameRun kernel.old kernel.new }
    ensures running { OnOk result (IsRunning kernel.new kept.new) }
    ensures goes { OnOk result (steps_left kernel.new < steps_left kernel.old) }
{
    if is_idle(kernel, cycle) {
        kernel.tick();
        return Ok(());
    }
    keep_unit(kernel, kept, cycle)?;
    Ok(())
}

// Whether nobody acts. Behind a unit that went to somebody it doesn't ask.
fn is_idle(kernel: &Kernel, cycle: u64) -> bool
    requires due { stage_of kernel.now ≡ CycleDue cycle }
    ensures idle { IsTrue result → (kept : Collected) → IsRunning kernel.now kept → IsIdle kernel.now }
{
    fitting();
    regular();
    on_time();
    let _plan = kernel.plan();
    kernel.ran().is_none() && all_rest(kernel.shared().seats.as_slice())
}

// Whether no agent's action is under way, by their seats.
fn all_rest(seats: &[Seat]) -> bool
    ensures { result ≡ list_all (λ (seat : Sits). rests seat.phase) seats.now }
{
    seats.iter().all(|seat| rests(seat))
}

fn rests(seat: &Seat) -> bool
    ensures { result ≡ rests seat.now.phase }
{
    match seat.phase {
        Phase::Acting => false,
        Phase::Waiting => true,
        Phase::Ended => true,
        Phase::Stopped => true,
        Phase::Silent => true,
    }
}
