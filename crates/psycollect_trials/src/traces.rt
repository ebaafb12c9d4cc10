//! Traces of small programs.
use psy_collect::collect;
use psy_run::kernel_of;
use std::test::Fail;

const TWO: &[u8] = b"tick 10; clock f = 2 * tick; clock s = 10 * tick;
temporal v of Fast on f = 0 depth 1;
temporal w of Slow on s = 0 depth 1;
agent Fast on f budget 8 { int n = 0; body { n = n + 1; v = n; advance 1 on f; } }
agent Slow on s budget 50 { body { w = past(v, 0); advance 1 on s; } }
";

#[test]
fn two_agents(rt: HostRuntime) -> Result<(), Fail> {
    let text = Vec::from_slice(rt.alloc(), TWO)?;
    let Ok(mut kernel) = kernel_of(rt.alloc(), &text, 2) else {
        assert!(&rt; false, "no kernel");
        return Ok(());
    };
    let want = "act Fast 0 0 0 2 7 2
act Slow 0 0 0 10 3 10
pub v 0 0 0
pub v 2 1 1
pub w 0 0 0
seg 0 0 7 Fast 0
seg 0 7 10 Slow 0
look Slow 0 7 v 0 0 0
end 2
";
    match collect(rt.alloc(), &mut kernel) {
        Ok(trace) => assert_eq!(&rt; trace.as_slice(), want.as_bytes()),
        Err(_) => assert!(&rt; false, "no trace"),
    }
    Ok(())
}
