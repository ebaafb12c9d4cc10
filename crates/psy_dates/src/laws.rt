//! What follows from the definitions of dates alone.
ghost use Rattle.std.specs.Prelude.{ℕ, ◌+◌, ◌*◌, ◌^◌, ◌≤◌, List, ℤ};
ghost use Rattle.psy_budget.specs.declared.charge.Stall.{Stall};
ghost use Rattle.psy_dates.specs.declared.plan.Plan.{Plan};
ghost use Rattle.psy_dates.specs.declared.shared.Shared.{Shared};
ghost use Rattle.psy_dates.specs.Plans.{IsPlan, IsSoundFor, opened_of};
ghost use Rattle.psy_dates.specs.Standing.{NoneActs, SharedStands};
ghost use Rattle.psy_dates.specs.Still.{IsStill, passed};
ghost use Rattle.psy_history.specs.Actions.{Opening};
ghost use Rattle.psy_history.specs.Compiled.{AreInputs};
ghost use Rattle.psy_history.specs.Scheduled.{turns_by};

use psy_clock::laws::dates;
use psy_history::laws::{fitting, given, openings, queue_sizes, queues, regular, rings};

/// Where no action is due, a date at which nothing happens leaves what agents share as it is.
pub fn still()
    ensures { (plan : Plan) (opening : Opening) (inputs : List (List ℤ)) (stalls : ℕ → List Stall) (order : ℕ → List ℕ) (date : ℕ) (shared : Shared)
        → IsPlan plan → AreInputs plan.unit inputs → IsSoundFor plan opening inputs stalls → opening.dates ≤ date → date ≤ 2 ^ 32
        → NoneActs date shared.seats.items → IsStill date shared
        → SharedStands (opened_of plan opening inputs stalls) plan.sizes
        (turns_by (opened_of plan opening inputs stalls) order (date * plan.unit.quantum)) date shared
        → SharedStands (opened_of plan opening inputs stalls) plan.sizes
        (turns_by (opened_of plan opening inputs stalls) order (date * plan.unit.quantum)) (date + 1) (passed date shared) }
{
    dates();
    fitting();
    openings();
    given();
    regular();
    rings();
    queues();
    queue_sizes();
}
