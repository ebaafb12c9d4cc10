//! What is written of a run that is cut short.
ghost use Rattle.std.specs.Prelude.{ℕ, List, Some};
ghost use Rattle.psy_door.specs.Files.{Files};
ghost use Rattle.psy_export.specs.declared.forms.Format.{Format};
ghost use Rattle.psy_export.specs.Exports.{IsExportFront, IsFrontOfExport};

use psy_notes::laws::one_front;

/// Where files are told, what is left of a run in another form that couldn't be written to its end is a front of the whole text.
pub fn front_of_whole()
    ensures { (to : Format) (files : Files) (name text : List ℕ) → IsExportFront to (Some files) name text → IsFrontOfExport to files name text }
{
    one_front();
}
