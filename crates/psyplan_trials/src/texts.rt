//! Programs of trials, and what is told of them.
ghost use Rattle.std.specs.Prelude.{◌≤◌, length};
ghost use Rattle.psy_base.specs.declared.limits.TheConstants.{FILE_BYTES};

use psy_feed::flow;
use psy_log::Line;
use psy_plan::{Stop, compile};
use psy_report::report;
use std::alloc::Global;
use std::process::Abort;
use std::test::Fail;

/// An agent that counts by two ticks, and one that looks at the count by ten, with these budgets.
pub const COUNT: &[u8] = b"tick 10; clock f = 2 * tick; clock s = 10 * tick;
temporal v of Fast on f = 0 depth 1;
temporal w of Slow on s = 0 depth 1;
agent Fast on f budget 8 { int n = 0; body { n = n + 1; v = n; advance 1 on f; } }
agent Slow on s budget 50 { body { w = past(v, 0); advance 1 on s; } }";

/// A sender and a receiver.
pub const MESSAGE: &[u8] = b"tick 50; clock c = 1 * tick; temporal g of B on c = 0 depth 1;
stream s to B keep 1 on c;
agent A on c budget 20 { int n = 0;
  body { n = n + 1; send n to s after 0 on c; advance 1 on c; } }
agent B on c budget 20 { body { if (ready(s)) { g = take(s); } advance 1 on c; } }";

/// Compares the flow of a program with the one that is wanted.
pub fn compare_flow(rt: &impl Abort, alloc: Global, text: &[u8], want: &str) -> Result<(), Fail>
    requires { length text.now ≤ FILE_BYTES }
{
    let unit = compile(alloc, text)?;
    let flow = flow(alloc, &unit)?;
    assert_eq!(rt; flow.as_slice(), want.as_bytes());
    Ok(())
}

/// Compares the report on a program, up to a date, with the one that is wanted.
pub fn compare_report(
    rt: &impl Abort,
    alloc: Global,
    text: &[u8],
    until: u32,
    want: &str,
) -> Result<(), Fail>
    requires { length text.now ≤ FILE_BYTES }
{
    let unit = compile(alloc, text)?;
    let report = report(alloc, &unit, until)?;
    assert_eq!(rt; report.as_slice(), want.as_bytes());
    Ok(())
}

/// Compares the line with which a text is refused with the one that is wanted.
pub fn compare_line(rt: &impl Abort, alloc: Global, text: &[u8], want: &str) -> Result<(), Fail>
    requires { length text.now ≤ FILE_BYTES }
{
    match compile(alloc, text) {
        Err(Stop::Refused(refusal)) => {
            let mut line = Line::new();
            line.set(&refusal.note());
            assert_eq!(rt; line.bytes(), want.as_bytes());
        }
        Err(Stop::Memory) => assert!(rt; false, "no memory"),
        Ok(_) => assert!(rt; false, "{want}"),
    }
    Ok(())
}
