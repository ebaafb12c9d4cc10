//! Laws of the defined answer: words have one, and no other; of runs: they keep their bounds; and of checks: what they tell is borne out.
ghost use Rattle.std.specs.Prelude.{◌≡◌, ℕ, ◌+◌, ◌≤◌, List, Option, Some, ℤ, length, FitsSigned};
ghost use Rattle.std.specs.Int.{w32};
ghost use Rattle.std.specs.List.{All};
ghost use Rattle.psy_base.specs.declared.limits.TheConstants.{FILE_BYTES};
ghost use Rattle.psy_door.specs.Files.{Files, bytes_under};
ghost use Rattle.psy_dates.specs.declared.plan.Plan.{Plan};
ghost use Rattle.psy_dates.specs.Beginnings.{behind};
ghost use Rattle.psy_dates.specs.declared.opening.Opening.{Opening as State};
ghost use Rattle.psy_dates.specs.Plans.{IsPlan, IsSoundFor};
ghost use Rattle.psy_base.specs.declared.sizes.Sizes.{Sizes};
ghost use Rattle.psy_base.specs.declared.ways.Ways.{Ways};
ghost use Rattle.psy_budget.specs.declared.charge.Stall.{Stall};
ghost use Rattle.psy_tree.specs.declared.unit.Unit.{Unit as Whole};
ghost use Rattle.psy_history.specs.History.{history};
ghost use Rattle.psy_meaning.specs.Units.{IsBare, IsOfText};
ghost use Rattle.psy_plan.specs.Supplies.{Supply};
ghost use Rattle.psy_verify.specs.Fits.{IsChecked};
ghost use Rattle.psy_history.specs.Compiled.{AreInputs, stated};
ghost use Rattle.psy_history.specs.Feeding.{OverranAlike, Reaches};
ghost use Rattle.psy_history.specs.declared.told.Script.{Script};
ghost use Rattle.psy_history.specs.Scripts.{IsScript, order_of, stalls_of};
ghost use Rattle.psy_run.specs.Accepted.{IsRunnable};
ghost use Rattle.psy_meaning.specs.ListedWays.{AreWaysOf};
ghost use Rattle.psy_run.specs.declared.refusal.Refusal.{Refusal as Cause};
ghost use Rattle.psy_run.specs.Answer.{Answers, answering, planning, supplying_by};
ghost use Rattle.psy_run.specs.Asked.{Asks, Check, Command, IsPlain, Run};
ghost use Rattle.psy_run.specs.Bounds.{IsBounded, IsBorneOut, KeepsBounds, KeepsBoundsBehind};
ghost use Rattle.psy_run.specs.OwnLines.{own_text};
ghost use Rattle.psy_run.specs.Planned.{IsPlanned, IsStatedPlan};
ghost use Rattle.psy_run.specs.Services.{Service, Ran, meaning_behind, meaning_by, meaning_of, text_of};

use psy_build::laws::ranges;
use psy_flow::laws::{listed, looking, named, nexts, one_list, sends};
use psy_gen::laws::alike as generated;
use psy_graph::laws::one_graph;
use psy_history::laws::{
    alike, alike_behind, compiled, fitting, isolation as histories, on_time, one_of_them, openings,
    queue_sizes, regular, ring_sizes,
};
use psy_image::laws::{one_image, one_text};
use psy_make::laws::short;
use psy_meaning::laws::sound;
use psy_plan::laws::{by_ways, one_plan, programs, supplies, supplies_by};
use psy_save::laws::by_text;
use psy_script::laws::lawful;
use psy_sizes::laws::listed_sizes;
use psy_snap::laws::{distinct, sound as sound_states};
use psy_verify::laws::{fits as verified_fits, images, rules};

/// Words have one answer, where files are told, and no other (that those of `exec`, `save` and `resume` have one, the
/// call itself shows, unless memory runs out); and the
/// program of a text that is refused is refused in one way, and not planned.
pub fn one_answer()
    ensures same { (words : List (List ℕ)) (files : Files) (status other : ℕ) (text another : List ℕ) → Answers words (Some files) status text
        → Answers words (Some files) other another → (status ≡ other) × (text ≡ another) }
    ensures some { (words : List (List ℕ)) (files : Files) → ((command : Command) → Asks words command → IsPlain command)
        → (status : ℕ) × (text : List ℕ) × Answers words (Some files) status text }
    ensures refused { (text : List ℕ) (until : ℕ) (refusal : Cause) → length text ≤ FILE_BYTES → (planning text until).stops refusal
        → ((other : Cause) → (planning text until).stops other → other ≡ refusal) × ((done : Service) → (planning text until).gives done → ⊥) }
{
    one_plan();
    by_ways();
    programs();
    short();
    one_image();
    one_text();
    images();
    rules();
    verified_fits();
    one_list();
    ranges();
    distinct();
}

/// What psyc compiles and plans fits: a plan by the statements of its program is one that a kernel runs, whose code goes well by the lists of
/// the ways of these statements.
pub fn fits()
    ensures { (plan : Plan) (ways : Ways) → IsStatedPlan plan → AreWaysOf plan.unit ways → IsPlan plan }
{
    compiled();
    listed();
    listed_sizes();
    one_graph();
    one_list();
}

/// What psyc verifies and plans fits: a plan of an image whose code was checked with its ways, and by them was supplied, is one that a kernel runs.
pub fn fits_by()
    ensures { (plan : Plan) (ways : Ways) (supply : Supply) → IsBare plan.unit → All (λ v. FitsSigned w32 v.init) plan.unit.variables
        → IsChecked plan.unit plan.code ways → (supplying_by plan.unit ways plan.until).gives supply → plan.nexts ≡ ways.nexts
        → plan.sizes ≡ supply.sizes → IsPlan plan }
{
    verified_fits();
    supplies_by();
    one_of_them();
}

/// A run keeps its bounds, for all inputs and every script: each action that is due by its last date has had all its work, up to its budget,
/// by its deadline, no ring is reached for beyond its size, and no queue holds more messages than it has places.
pub fn bounds()
    ensures { (plan : Plan) (inputs : List (List ℤ)) (script : Script) → IsStatedPlan plan → AreInputs plan.unit inputs → IsScript plan.unit script
        → KeepsBounds (meaning_of plan.unit plan.nexts inputs script) (order_of plan.unit script) plan.sizes plan.until }
{
    compiled();
    regular();
    alike();
    on_time();
    ring_sizes();
    queue_sizes();
}

/// A run of code by a plan that fits keeps its bounds, for all inputs and every script.
pub fn bounds_by()
    ensures { (plan : Plan) (inputs : List (List ℤ)) (script : Script) → IsPlan plan → AreInputs plan.unit inputs → IsScript plan.unit script
        → KeepsBounds (meaning_by plan.unit plan.code plan.nexts inputs script) (order_of plan.unit script) plan.sizes plan.until }
{
    fitting();
    regular();
    on_time();
    ring_sizes();
    queue_sizes();
}

/// A run that goes on from a state keeps its bounds, for all inputs and every script: behind the state each queue has as many places more as it held
/// messages there.
pub fn bounds_behind()
    ensures { (plan : Plan) (state : State) (inputs : List (List ℤ)) (script : Script) → IsPlanned plan → AreInputs plan.unit inputs
        → IsScript plan.unit script → IsSoundFor plan (behind plan state) inputs (stalls_of script)
        → KeepsBoundsBehind (meaning_behind plan.unit plan.nexts plan.sizes plan.until state inputs script) (order_of plan.unit script) plan.sizes plan.until }
{
    compiled();
    openings();
    regular();
    alike_behind();
    on_time();
    ring_sizes();
    queue_sizes();
    by_text();
}

/// What words come to, where nothing refuses it, keeps its bounds.
pub fn bounded()
    ensures { (words : List (List ℕ)) (files : Option Files) (done : Service) → (answering words files).gives done → IsBounded done }
{
    programs();
    sound();
    short();
    generated();
    one_graph();
    one_of_them();
    lawful();
    bounds();
    supplies();
    images();
    fits_by();
    bounds_by();
    fits();
    looking();
    named();
    nexts();
    sends();
    sound_states();
    bounds_behind();
}

/// What a check tells is borne out: its lines are those of the agents' graphs, and their demand is met, over every length where it says so.
pub fn borne_out()
    ensures { (words : List (List ℕ)) (files : Option Files) (done : Service) → (answering words files).gives done → IsBorneOut done }
{
    programs();
    supplies();
}

/// The headline: where a check of a program up to a date is answered by status 0, each run of it up to that date is, whatever the inputs and
/// the script; it writes the dated meaning of the program's statements, by the points that follow each of its points, and the sizes that its
/// buffers need, and keeps its bounds.
pub fn accepted()
    ensures { (files others : Files) (checked ran : List (List ℕ)) (program again : List ℕ) (until : ℕ) (inputs script : Option (List ℕ)) (text : List ℕ)
        → Asks checked (Check program until) → Answers checked (Some files) 0 text
        → Asks ran (Run again until inputs script) → bytes_under others again ≡ bytes_under files program
        → IsRunnable ran others again until inputs script }
{
    programs();
    bounded();
    supplies();
}

/// Isolation, in bytes: two runs of a program with the same inputs, each with stalls of its own. Where, of each agent that reaches another,
/// actions with the same number both overran or both didn't, the lines of the other's stops and of its variables' values are the same.
pub fn isolation()
    ensures { (unit : Whole) (nexts : List (List (List ℕ))) (stalls others : ℕ → List Stall) (inputs : List (List ℤ)) (until to : ℕ)
        → IsOfText unit → AreInputs unit inputs
        → ((from : ℕ) → Reaches unit to from
        → OverranAlike (history (stated unit nexts stalls inputs) (until + 1) from) (history (stated unit nexts others inputs) (until + 1) from))
        → own_text (stated unit nexts stalls inputs) to until ≡ own_text (stated unit nexts others inputs) to until }
{
    histories();
}

/// Rounds change nothing: of a program's runs by scripts that differ in their rounds alone the text is the same, to the byte.
pub fn rounds()
    ensures { (unit : Whole) (nexts : List (List (List ℕ))) (sizes : Sizes) (until : ℕ) (inputs : List (List ℤ)) (script other : Script)
        → script.stalls ≡ other.stalls → script.orders ≡ other.orders
        → text_of (Ran unit nexts sizes until inputs script) ≡ text_of (Ran unit nexts sizes until inputs other) }
{}
