//! The lines of a date.

ghost use Rattle.std.specs.Prelude.{◌≡◌, ◌+◌, ◌≤◌, ◌++◌, length};
ghost use Rattle.psy_base.specs.declared.limits.TheConstants.{WORD_BYTES};
ghost use Rattle.psy_log.specs.Forms.{trap_name, stop_overrun_line, stop_trap_line, value_line, message_line};

use crate::line::Line;
use psy_arith::Trap;

/// `DATE stop AGENT overrun`
pub fn set_stop_overrun(line: &mut Line, date: u64, agent: &[u8])
    requires { length agent.now ≤ WORD_BYTES }
    ensures { line.new ≡ stop_overrun_line date agent.now }
{
    line.start(b"");
    line.add_u64(date);
    line.add(b" stop ");
    line.add(agent);
    line.add(b" overrun\n");
}

/// `DATE stop AGENT trap KIND`
pub fn set_stop_trap(line: &mut Line, date: u64, agent: &[u8], kind: Trap)
    requires { length agent.now ≤ WORD_BYTES }
    ensures { line.new ≡ stop_trap_line date agent.now kind }
{
    line.start(b"");
    line.add_u64(date);
    line.add(b" stop ");
    line.add(agent);
    line.add(b" trap ");
    add_trap(line, kind);
    line.add(b"\n");
}

// Adds the name of a kind of trap.
fn add_trap(line: &mut Line, kind: Trap)
    requires { length line.old + 6 ≤ 128 }
    ensures name { line.new ≡ line.old ++ trap_name kind }
    ensures most { length line.new ≤ length line.old + 6 }
{
    match kind {
        Trap::Divide => line.add(b"divide"),
        Trap::Index => line.add(b"index"),
        Trap::Loop => line.add(b"loop"),
        Trap::Take => line.add(b"take"),
    }
}

/// `DATE VARIABLE VALUE`
pub fn set_value(line: &mut Line, date: u64, variable: &[u8], value: i32)
    requires { length variable.now ≤ WORD_BYTES }
    ensures { line.new ≡ value_line date variable.now value }
{
    line.start(b"");
    line.add_u64(date);
    line.add(b" ");
    line.add(variable);
    line.add(b" ");
    line.add_value(value);
    line.add(b"\n");
}

/// `DATE STREAM msg VALUE`
pub fn set_message(line: &mut Line, date: u64, stream: &[u8], value: i32)
    requires { length stream.now ≤ WORD_BYTES }
    ensures { line.new ≡ message_line date stream.now value }
{
    line.start(b"");
    line.add_u64(date);
    line.add(b" ");
    line.add(stream);
    line.add(b" msg ");
    line.add_value(value);
    line.add(b"\n");
}
