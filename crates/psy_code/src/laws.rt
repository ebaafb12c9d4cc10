//! Laws of the definitions, each the contract of a function that does nothing.

ghost use Rattle.std.specs.Prelude.{◌≡◌, ◌+◌, ℕ, true, Some, length};
ghost use Rattle.psy_arith.specs.declared.table.Row.{Row};
ghost use Rattle.psy_arith.specs.Tables.{bytes_rise, row_of};
ghost use Rattle.psy_code.specs.declared.code.AgentCode.{AgentCode};
ghost use Rattle.psy_code.specs.declared.code.Code.{Code};
ghost use Rattle.psy_code.specs.declared.instr.Instr.{Instr};
ghost use Rattle.psy_code.specs.Execution.{Machine, RanTo, RunState, Went, does, run_code};
ghost use Rattle.psy_code.specs.Lasting.{IsOver, Lasted, StandsAt};
ghost use Rattle.psy_code.specs.Views.{View};
ghost use Rattle.psy_code.specs.Rows.{byte_of, rows, is_plain};

/// The bytes of the table rise, and it has the byte of each instruction.
pub fn rows()
    ensures rise { bytes_rise rows ≡ true }
    ensures each { (i : Instr) → (r : Row) × (row_of (byte_of i) rows ≡ Some r) }
{}

/// An instruction that goes on pops and pushes as many operands as its row says, but for calls and for
/// tests with a jump.
pub fn heights()
    ensures { (code : Code) (agent : AgentCode) (view : View) (i : Instr) (m n : Machine) (r : Row) → is_plain i ≡ true
        → row_of (byte_of i) rows ≡ Some r → does code agent view i m ≡ Went n → length n.operands + r.pops ≡ length m.operands + r.pushes }
{}

/// What a run promises where it ends or traps: it lasted as many instructions as were counted and no fewer, at each of
/// which it was running, not stuck, and asked only what its view served. A machine that ended stands at the point.
pub fn lasting()
    ensures lasted { (code : Code) (agent : AgentCode) (s t : RunState) (n : ℕ) → IsOver (run_code code agent s n) t → Lasted code agent s n t }
    ensures ended { (code : Code) (agent : AgentCode) (s t : RunState) (n point : ℕ) → run_code code agent s n ≡ RanTo point t
        → StandsAt agent point s.machine t.machine }
{}
