//! The lines of a check: the places of each buffer, rates, and whether the demand is met.

ghost use Rattle.std.specs.Prelude.{◌≡◌, ◌+◌, ◌≤◌, ◌++◌, length};
ghost use Rattle.psy_base.specs.declared.limits.TheConstants.{WORD_BYTES};
ghost use Rattle.psy_log.specs.Forms.{variable_size_line, stream_size_line, rate_line, feasible_line, on_processor, infeasible_line};

use crate::line::Line;

/// `variable VARIABLE SIZE`
pub fn set_variable_size(line: &mut Line, variable: &[u8], size: u32)
    requires { length variable.now ≤ WORD_BYTES }
    ensures { line.new ≡ variable_size_line variable.now size }
{
    line.start(b"variable ");
    line.add(variable);
    line.add(b" ");
    line.add_u32(size);
    line.add(b"\n");
}

/// `stream STREAM SIZE`
pub fn set_stream_size(line: &mut Line, stream: &[u8], size: u32)
    requires { length stream.now ≤ WORD_BYTES }
    ensures { line.new ≡ stream_size_line stream.now size }
{
    line.start(b"stream ");
    line.add(stream);
    line.add(b" ");
    line.add_u32(size);
    line.add(b"\n");
}

/// `rate AGENT RATE INTERCEPT`
pub fn set_rate(line: &mut Line, agent: &[u8], rate: u64, intercept: u64)
    requires { length agent.now ≤ WORD_BYTES }
    ensures { line.new ≡ rate_line agent.now rate intercept }
{
    line.start(b"rate ");
    line.add(agent);
    line.add(b" ");
    line.add_u64(rate);
    line.add(b" ");
    line.add_u64(intercept);
    line.add(b"\n");
}

/// `feasible UNTIL`
pub fn set_feasible(line: &mut Line, until: u64)
    ensures { line.new ≡ feasible_line until }
{
    line.start(b"feasible ");
    line.add_u64(until);
    line.add(b"\n");
}

/// `infeasible LENGTH DEMAND SUPPLY`, with ` on PROCESSOR` where there is one
pub fn set_infeasible(
    line: &mut Line,
    length: u64,
    demand: u64,
    supply: u64,
    processor: Option<u32>,
)
    ensures { line.new ≡ infeasible_line length demand supply processor }
{
    line.start(b"infeasible ");
    line.add_u64(length);
    line.add(b" ");
    line.add_u64(demand);
    line.add(b" ");
    line.add_u64(supply);
    add_processor(line, processor);
    line.add(b"\n");
}

// Adds ` on PROCESSOR`, or nothing where there is no processor.
fn add_processor(line: &mut Line, processor: Option<u32>)
    requires { length line.old + 14 ≤ 128 }
    ensures named { line.new ≡ line.old ++ on_processor processor }
    ensures most { length line.new ≤ length line.old + 14 }
{
    if let Some(processor) = processor {
        line.add(b" on ");
        line.add_u32(processor);
    }
}
