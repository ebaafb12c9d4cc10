//! Laws of runs that are taken up again, each the contract of a function that does nothing.
ghost use Rattle.std.specs.Prelude.{◌≡◌, ◌≤◌, ◌<◌, ◌+◌, ◌*◌, ◌^◌, ◌++◌, ℕ, ℤ, List};
ghost use Rattle.psy_base.specs.declared.limits.TheConstants.{UNTIL};
ghost use Rattle.psy_base.specs.declared.sizes.Sizes.{Sizes};
ghost use Rattle.psy_code.specs.declared.code.Code.{Code};
ghost use Rattle.psy_dates.specs.declared.plan.Plan.{Plan};
ghost use Rattle.psy_dates.specs.Plans.{IsPlan};
ghost use Rattle.psy_history.specs.declared.told.Script.{Script};
ghost use Rattle.psy_history.specs.Actions.{System};
ghost use Rattle.psy_history.specs.Compiled.{AreInputs, IsCompiled};
ghost use Rattle.psy_history.specs.Resuming.{IsQuiet, MayResume, resumed_at};
ghost use Rattle.psy_history.specs.Scripts.{IsScript, order_of};
ghost use Rattle.psy_kernel.specs.Texts.{log_of, run_text};
ghost use Rattle.psy_meaning.specs.BufferSizes.{AreSizes};
ghost use Rattle.psy_meaning.specs.KnownWays.{OfText, Ways};
ghost use Rattle.psy_rest.specs.Joined.{meaning_behind, meaning_of, state_at};

use psy_history::laws::{alike_behind, compiled, openings, regular, resume, saved};
use psy_kernel::laws::taken_up;
use psy_save::laws::first_values;

/// A history that is taken up again at a quiet date writes the rest of the whole one's text: behind the lines of the dates up to that one, those of all
/// later dates, and the whole one's summary.
pub fn rest()
    ensures { (s : System) (ways : Ways) (code : Code) (order : ℕ → List ℕ) (sizes : Sizes) (date until : ℕ)
        → MayResume s ways code sizes.rings order date → date ≤ until
        → run_text s order sizes until ≡ log_of s (date + 1) ++ run_text (resumed_at s sizes.rings order date) order sizes until }
{
    resume();
}

/// What a program's run writes up to a quiet date, before its summary, and behind it what the run writes that goes on from the state which the first one
/// leaves there, is what the whole run writes, to the byte: for all inputs and every script, by a plan of the program's statements that fits.
pub fn joined()
    ensures { (plan : Plan) (date : ℕ) (inputs : List (List ℤ)) (script : Script) → IsPlan plan → IsCompiled plan.unit plan.code plan.nexts
        → AreSizes plan.unit (OfText plan.unit) plan.nexts plan.sizes → AreInputs plan.unit inputs → IsScript plan.unit script
        → date ≤ plan.until → date ≤ UNTIL → date * plan.unit.quantum < 2 ^ 50 → IsQuiet (meaning_of plan inputs script) date
        → run_text (meaning_of plan inputs script) (order_of plan.unit script) plan.sizes plan.until
        ≡ log_of (meaning_of plan inputs script) (date + 1)
        ++ run_text (meaning_behind plan (state_at plan inputs script date) inputs script) (order_of plan.unit script) plan.sizes plan.until }
{
    compiled();
    regular();
    openings();
    alike_behind();
    saved();
    first_values();
    taken_up();
    rest();
}
