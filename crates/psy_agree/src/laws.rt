//! Laws of the definitions, each the contract of a function that does nothing.

ghost use Rattle.std.specs.Prelude.{ℕ, List, Option};
ghost use Rattle.psy_door.specs.Files.{Files};
ghost use Rattle.psy_run.specs.Answer.{answering};
ghost use Rattle.psy_run.specs.Services.{Service};
ghost use Rattle.psy_agree.specs.Readable.{IsReadBack};

use psy_graph::laws::one_graph;
use psy_history::laws::values;
use psy_make::laws::short;
use psy_notes::laws::one_reading;
use psy_plan::laws::{programs, supplies};
use psy_run::laws::bounded;
use psy_script::laws::lawful;

/// Whatever psyc writes for a run, a trial or graphs, for whatever words and files, psyview reads.
pub fn read_back()
    ensures { (words : List (List ℕ)) (files : Option Files) (done : Service) → (answering words files).gives done → IsReadBack done }
{
    programs();
    supplies();
    short();
    one_graph();
    values();
    lawful();
    bounded();
    one_reading();
}
