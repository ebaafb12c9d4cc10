//! Laws of traces, each the contract of a function that does nothing.
ghost use Rattle.std.specs.Prelude.{ℕ, ◌*◌, ◌<◌, ◌≡◌, ◌^◌, List, Some, map, ℤ};
ghost use Rattle.psy_base.specs.declared.sizes.Sizes.{Sizes};
ghost use Rattle.psy_budget.specs.declared.charge.Stall.{Stall};
ghost use Rattle.psy_code.specs.declared.code.Code.{Code};
ghost use Rattle.psy_dates.specs.declared.plan.Plan.{Plan};
ghost use Rattle.psy_dates.specs.Plans.{IsPlan, system_of};
ghost use Rattle.psy_history.specs.Compiled.{AreInputs, IsCompiled, coded, stated};
ghost use Rattle.psy_history.specs.declared.told.Script.{Script};
ghost use Rattle.psy_history.specs.Scripts.{IsScript, order_of, stalls_of};
ghost use Rattle.psy_tree.specs.declared.unit.Unit.{Unit as Whole};
ghost use Rattle.psy_audit.specs.Faults.{IsLegal};
ghost use Rattle.psy_audit.specs.Judging.{judged_of};
ghost use Rattle.psy_audit.specs.Spelled.{trace_text};
ghost use Rattle.psy_audit.specs.Texts.{lines_in};
ghost use Rattle.psy_audit.specs.Traced.{trace_of};

use psy_clock::laws::{dates, distances};
use psy_history::laws::{
    alike as histories, compiled, fitting, given, on_time, one_of_them, regular, ring_sizes,
};

/// What a run traces is legal: by a plan that fits, with inputs and a script of its program.
pub fn traced()
    ensures { (plan : Plan) (inputs : List (List ℤ)) (script : Script) → IsPlan plan → AreInputs plan.unit inputs → IsScript plan.unit script
        → IsLegal (judged_of plan script) (map Some (trace_of (system_of plan inputs (stalls_of script)) (order_of plan.unit script) plan.sizes plan.until)) }
{
    dates();
    fitting();
    regular();
    one_of_them();
    on_time();
    ring_sizes();
}

/// The text of a trace says, line by line, what the trace is: so its reader finds it again. Its numbers have 12 digits at most: the run has fewer than
/// 10^12 cycles, and a plan's last date is a number of 32 bits.
pub fn read()
    ensures { (plan : Plan) (inputs : List (List ℤ)) (script : Script) → IsPlan plan → AreInputs plan.unit inputs → IsScript plan.unit script
        → plan.until < 2 ^ 32 → plan.until * plan.unit.quantum < 10 ^ 12
        → lines_in plan.unit plan.until (trace_text (system_of plan inputs (stalls_of script)) (order_of plan.unit script) plan.sizes plan.until)
        ≡ map Some (trace_of (system_of plan inputs (stalls_of script)) (order_of plan.unit script) plan.sizes plan.until) }
{
    dates();
    distances();
    fitting();
    regular();
    one_of_them();
    on_time();
    ring_sizes();
}

/// So the text of a run's trace is that of a legal trace, for whoever judges it.
pub fn told()
    ensures { (plan : Plan) (inputs : List (List ℤ)) (script : Script) → IsPlan plan → AreInputs plan.unit inputs → IsScript plan.unit script
        → plan.until < 2 ^ 32 → plan.until * plan.unit.quantum < 10 ^ 12 → IsLegal (judged_of plan script)
        (lines_in plan.unit plan.until (trace_text (system_of plan inputs (stalls_of script)) (order_of plan.unit script) plan.sizes plan.until)) }
{
    traced();
    read();
}

/// Code that acts as a program's statements has their trace.
pub fn alike()
    ensures { (unit : Whole) (code : Code) (nexts : List (List (List ℕ))) (stalls : ℕ → List Stall) (inputs : List (List ℤ))
        → IsCompiled unit code nexts → AreInputs unit inputs
        → (order : ℕ → List ℕ) (sizes : Sizes) (until : ℕ)
        → trace_text (coded unit code nexts stalls inputs) order sizes until ≡ trace_text (stated unit nexts stalls inputs) order sizes until }
{
    histories();
    compiled();
    regular();
    given();
}
