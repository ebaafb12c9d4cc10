//! Laws of the definitions, each the contract of a function that does nothing.
ghost use Rattle.std.specs.Prelude.{ℕ, ℤ, List};
ghost use Rattle.psy_history.specs.Compiled.{AreInputs};
ghost use Rattle.psy_history.specs.declared.told.Script.{Script};
ghost use Rattle.psy_history.specs.Scripts.{IsScript};
ghost use Rattle.psy_tree.specs.declared.unit.Unit.{Unit as Whole};
ghost use Rattle.psy_script.specs.Inputs.{AreListsOf};
ghost use Rattle.psy_script.specs.Script.{IsScriptOf};

/// The lists that a text without fault states are inputs of the program, and the script that one states is a script of it.
pub fn lawful()
    ensures inputs { (unit : Whole) (text : List ℕ) (lists : List (List ℤ)) → AreListsOf unit text lists → AreInputs unit lists }
    ensures script { (unit : Whole) (text : List ℕ) (script : Script) → IsScriptOf unit text script → IsScript unit script }
{}
