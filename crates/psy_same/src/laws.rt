//! Laws that join `build` and `exec`, and `save` and `resume`, to `run`, each the contract of a function that does nothing.
ghost use Rattle.std.specs.Prelude.{◌≡◌, ◌≤◌, ◌+◌, ◌++◌, ℕ, ℤ, List, Option, Some};
ghost use Rattle.psy_base.specs.declared.sizes.Sizes.{Sizes};
ghost use Rattle.psy_door.specs.Files.{Files, bytes_under};
ghost use Rattle.psy_gen.specs.SameWays.{SendsOutsideLoops};
ghost use Rattle.psy_history.specs.declared.told.Script.{Script};
ghost use Rattle.psy_history.specs.Scripts.{order_of};
ghost use Rattle.psy_kernel.specs.Texts.{log_of, run_text};
ghost use Rattle.psy_tree.specs.declared.unit.Unit.{Unit as Whole};
ghost use Rattle.psy_run.specs.Answer.{Answers, answering, compiling};
ghost use Rattle.psy_run.specs.Asked.{Asks, Exec, Resume, Run, Save};
ghost use Rattle.psy_run.specs.Services.{Ran, Resumed, meaning_of, state_at, text_of};
ghost use Rattle.psy_run.specs.Steps.{imaging};

use psy_flow::laws::{looking, named, nexts, one_list, sends};
use psy_gen::laws::{alike as generated, same_paths, same_ways, verified};
use psy_graph::laws::one_graph;
use psy_history::laws::{alike as histories, alike_behind, one_of_them};
use psy_image::laws::one_image;
use psy_meaning::laws::sound;
use psy_plan::laws::{one_plan, programs, supplies};
use psy_rest::laws::joined;
use psy_run::laws::{fits, one_answer};
use psy_save::laws::{first_values, kept};
use psy_script::laws::lawful;
use psy_sizes::laws::{listed_sizes, one_size};
use psy_verify::laws::{alike as verified_alike, rules};

/// What `build` writes runs as its program does: where none of its sends stands in a bounded loop, what `exec` answers of the image is what `run`
/// answers of the program, for the same last date, inputs and script.
pub fn same_runs()
    ensures { (files : Files) (ran executed : List (List ℕ)) (program image : List ℕ) (until : ℕ) (inputs script : Option (List ℕ)) (unit : Whole)
        (status other : ℕ) (text another : List ℕ) → Asks ran (Run program until inputs script) → Asks executed (Exec image until inputs script)
        → (compiling (Some files) program).gives unit → SendsOutsideLoops unit → (imaging unit).gives (bytes_under files image)
        → Answers ran (Some files) status text → Answers executed (Some files) other another → (status ≡ other) × (text ≡ another) }
{
    sends();
    sound();
    generated();
    same_ways();
    same_paths();
    verified();
    one_graph();
    histories();
    one_image();
    programs();
    supplies();
    lawful();
    listed_sizes();
    verified_alike();
    rules();
    one_answer();
}

/// A run that is saved goes on as the whole one: where `save` at a date is answered by status 0, and a file holds what it wrote, `resume` from that
/// file up to a later date is answered by status 0 too, where the whole `run` up to that date is, with the same inputs and script. What it writes
/// is what the whole run writes behind the lines of the dates up to the one at which it was saved.
pub fn taken_up()
    ensures { (files : Files) (ran saved resumed : List (List ℕ)) (program state : List ℕ) (date until : ℕ) (inputs script : Option (List ℕ)) (unit : Whole)
        (nexts : List (List (List ℕ))) (sizes : Sizes) (lists : List (List ℤ)) (said : Script) → Asks ran (Run program until inputs script)
        → Asks saved (Save program date inputs script) → Asks resumed (Resume program state until inputs script) → date ≤ until
        → (answering ran (Some files)).gives (Ran unit nexts sizes until lists said) → Answers saved (Some files) 0 (bytes_under files state)
        → (rest : List ℕ) × Answers resumed (Some files) 0 rest
        × (run_text (meaning_of unit nexts lists said) (order_of unit said) sizes until ≡ log_of (meaning_of unit nexts lists said) (date + 1) ++ rest) }
{
    programs();
    one_plan();
    supplies();
    sound();
    generated();
    one_graph();
    one_of_them();
    looking();
    named();
    nexts();
    sends();
    fits();
    one_list();
    one_size();
    lawful();
    histories();
    alike_behind();
    first_values();
    kept();
    joined();
}
