//! The lines behind the last date.

ghost use Rattle.std.specs.Prelude.{◌≡◌, ◌≤◌, length};
ghost use Rattle.psy_base.specs.declared.limits.TheConstants.{WORD_BYTES};
ghost use Rattle.psy_log.specs.Forms.{end_line, agent_line, variable_line, stream_line};

use crate::line::Line;

/// `end UNTIL`
pub fn set_end(line: &mut Line, until: u64)
    ensures { line.new ≡ end_line until }
{
    line.start(b"end ");
    line.add_u64(until);
    line.add(b"\n");
}

/// `agent AGENT COUNT SLACK`
pub fn set_agent(line: &mut Line, agent: &[u8], count: u64, slack: Option<u64>)
    requires { length agent.now ≤ WORD_BYTES }
    ensures { line.new ≡ agent_line agent.now count slack }
{
    line.start(b"agent ");
    line.add(agent);
    line.add(b" ");
    line.add_u64(count);
    line.add(b" ");
    match slack {
        None => line.add(b"-"),
        Some(slack) => line.add_u64(slack),
    }
    line.add(b"\n");
}

/// `variable VARIABLE SIZE REACH`
pub fn set_variable(line: &mut Line, variable: &[u8], size: u32, reach: Option<u32>)
    requires { length variable.now ≤ WORD_BYTES }
    ensures { line.new ≡ variable_line variable.now size reach }
{
    line.start(b"variable ");
    line.add(variable);
    line.add(b" ");
    line.add_u32(size);
    line.add(b" ");
    match reach {
        None => line.add(b"-"),
        Some(reach) => line.add_u32(reach),
    }
    line.add(b"\n");
}

/// `stream STREAM SIZE HELD`
pub fn set_stream(line: &mut Line, stream: &[u8], size: u32, held: u32)
    requires { length stream.now ≤ WORD_BYTES }
    ensures { line.new ≡ stream_line stream.now size held }
{
    line.start(b"stream ");
    line.add(stream);
    line.add(b" ");
    line.add_u32(size);
    line.add(b" ");
    line.add_u32(held);
    line.add(b"\n");
}
