//! Laws of the definitions, each the contract of a function that does nothing.
ghost use Rattle.std.specs.Prelude.{◌≡◌, ◌<◌, ℕ, Some, length, slice_get};
ghost use Rattle.psy_code.specs.Execution.{RunState, Running, run_code};
ghost use Rattle.psy_code.specs.declared.code.AgentCode.{AgentCode};
ghost use Rattle.psy_code.specs.declared.code.Code.{Code};
ghost use Rattle.psy_listing.specs.Straight.{straight_way};

/// The instruction of a number in an action stands, whatever the values, at the place of that number on the straight way from the place where
/// the action began, as far as that way goes.
pub fn numbers()
    ensures { (code : Code) (agent : AgentCode) (s t : RunState) (n : ℕ) → run_code code agent s n ≡ Running t
        → n < length (straight_way code.instrs s.machine.place) → slice_get (straight_way code.instrs s.machine.place) n ≡ Some t.machine.place }
{}
