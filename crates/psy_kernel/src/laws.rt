//! Laws of the definitions, each the contract of a function that does nothing.

ghost use Rattle.std.specs.Prelude.{ℕ, ◌≡◌, ◌+◌, ◌*◌, ◌-◌, ◌==◌, ◌<◌, ◌≤◌, if◌then◌else◌, None};
ghost use Rattle.psy_dates.specs.Beginnings.{behind};
ghost use Rattle.psy_dates.specs.Plans.{IsPlan};
ghost use Rattle.psy_history.specs.Compiled.{AreInputs};
ghost use Rattle.psy_history.specs.Processors.{processors};
ghost use Rattle.psy_history.specs.Resuming.{IsQuiet};
ghost use Rattle.psy_history.specs.Scripts.{IsScript};
ghost use Rattle.psy_kernel.specs.declared.stage.Stage.TheVariants.{CycleDue};
ghost use Rattle.psy_kernel.specs.Freezing.{BeginWithFirst, left_by, state_by};
ghost use Rattle.psy_kernel.specs.Progress.{Progress, after_cycle, after_unit, at_rest, cycles_on, next_processor, stage_of, system, up_to_date};
ghost use Rattle.psy_kernel.specs.Slices.{IsSliceEnd, after_cycles, after_units};

use psy_code::laws::lasting;
use psy_history::laws::{fitting, given, openings, regular};

/// A cycle is as many units as there are processors, whatever their round, but that it leaves no unit as the last step. A slice has one end. It is as
/// many cycles one by one, each of which is due where those before it were done; and so are all cycles before a date.
pub fn slices()
    ensures units { (p : Progress) → p.units ≡ 0 → 1 ≤ processors p.plan.unit → at_rest (after_units (processors p.plan.unit) p) ≡ after_cycle p }
    ensures one_end { (p : Progress) (a b : ℕ) → IsSliceEnd p a → IsSliceEnd p b → a ≡ b }
    ensures cycles { (p : Progress) (end : ℕ) → IsSliceEnd p end → record p { cycles = end; last = None } ≡ after_cycles (end - p.cycles) p }
    ensures due { (p : Progress) (end n : ℕ) → IsSliceEnd p end → stage_of p ≡ CycleDue p.cycles → p.cycles + n < end
        → stage_of (after_cycles n p) ≡ CycleDue (p.cycles + n) }
    ensures tick { (p : Progress) → p.cycles ≤ p.dates * p.plan.unit.quantum
        → up_to_date p ≡ at_rest (after_cycles (p.dates * p.plan.unit.quantum - p.cycles) p) }
    ensures due_on { (p : Progress) (n : ℕ) → stage_of p ≡ CycleDue p.cycles → p.cycles + n < p.dates * p.plan.unit.quantum
        → stage_of (after_cycles n p) ≡ CycleDue (p.cycles + n) }
{}

/// A unit is one more cycle of its processor, and of no other: that one did as many before as were done whole. Where no cycle was begun, each processor did
/// those.
pub fn units()
    ensures known { (p : Progress) → IsScript p.plan.unit p.script → p.units < processors p.plan.unit → next_processor p < processors p.plan.unit }
    ensures own { (p : Progress) → IsScript p.plan.unit p.script → p.units < processors p.plan.unit → cycles_on p (next_processor p) ≡ p.cycles }
    ensures more { (p : Progress) (processor : ℕ) → IsScript p.plan.unit p.script → p.units < processors p.plan.unit → processor < processors p.plan.unit
        → cycles_on (after_unit p) processor ≡ (if processor == next_processor p then p.cycles + 1 else cycles_on p processor) }
    ensures whole { (p : Progress) (processor : ℕ) → p.units ≡ 0 → cycles_on p processor ≡ p.cycles }
{}

/// The state of what a whole run leaves at a quiet date is one behind which another run begins with just that.
pub fn taken_up()
    ensures { (p : Progress) → IsPlan p.plan → AreInputs p.plan.unit p.inputs → IsScript p.plan.unit p.script → p.opening ≡ None
        → IsQuiet (system p) p.plan.until → BeginWithFirst p.plan → behind p.plan (state_by p.plan (left_by p)) ≡ left_by p }
{
    fitting();
    openings();
    regular();
    lasting();
    given();
}
