//! Reports that were worked out by hand.
use crate::texts::{COUNT, MESSAGE, compare_line, compare_report};
use std::test::Fail;

// The counter's actions cost 7, and 8 where the body begins anew; it asks for 8 cycles by 2 ticks. The other's cost 3, then 4; it asks for 50
// by 10. Over 1 tick nothing is due, and 10 cycles are left; so are 100 - 40 - 50 over 10 ticks.
#[test]
fn a_count_is_reported(rt: HostRuntime) -> Result<(), Fail> {
    let want = "agent Fast budget 8 worst 8 of 8 share 40.00%
agent Slow budget 50 worst 4 of 50 share 50.00%
tightest 1 supply 10 demand 0 left 10
part Fast 0
part Slow 0
ring v 5
ring w 1
";
    compare_report(&rt, rt.alloc(), COUNT, 20, want)
}

// The same with a budget of 12: over 20 ticks the demand is 120 + 100.
const GREEDY: &[u8] = b"tick 10; clock f = 2 * tick; clock s = 10 * tick;
temporal v of Fast on f = 0 depth 1; temporal w of Slow on s = 0 depth 1;
agent Fast on f budget 12 { int n = 0; body { n = n + 1; v = n; advance 1 on f; } }
agent Slow on s budget 50 { body { w = past(v, 0); advance 1 on s; } }";

#[test]
fn what_is_missing_is_reported(rt: HostRuntime) -> Result<(), Fail> {
    let want = "agent Fast budget 12 worst 8 of 12 share 60.00%
agent Slow budget 50 worst 4 of 50 share 50.00%
tightest 20 supply 200 demand 220 left -20
part Fast 120
part Slow 100
ring v 5
ring w 1
";
    compare_report(&rt, rt.alloc(), GREEDY, 20, want)
}

// Both are due by each tick, with nothing left over any length.
const EQUAL: &[u8] = b"tick 20; clock c = 1 * tick;
temporal x of A on c = 0 depth 1; temporal y of B on c = 0 depth 1;
agent A on c budget 10 { body { x = 1; advance 1 on c; } }
agent B on c budget 10 { body { y = 2; advance 1 on c; } }";

#[test]
fn the_least_of_equal_lengths_is_reported(rt: HostRuntime) -> Result<(), Fail> {
    let want = "agent A budget 10 worst 4 of 10 share 50.00%
agent B budget 10 worst 4 of 10 share 50.00%
tightest 1 supply 20 demand 20 left 0
part A 10
part B 10
ring x 1
ring y 1
";
    compare_report(&rt, rt.alloc(), EQUAL, 5, want)
}

// On processor 0 an agent asks for 12 by 2 ticks: over 2, 4, .. ticks 8, 16, .. of 20, 40, .. are left, over 1, 3, .. 10, 18, .. On processor 1 another
// asks for 120 by 10: over 20 ticks for 240 of 200.
const APART: &[u8] = b"tick 10; clock f = 2 * tick; clock s = 10 * tick;
temporal v of Fast on f = 0 depth 1; temporal w of Slow on s = 0 depth 1;
agent Fast on f budget 12 { int n = 0; body { n = n + 1; v = n; advance 1 on f; } }
agent Slow on s processor 1 budget 120 { body { w = past(v, 0); advance 1 on s; } }";

#[test]
fn each_processor_is_reported(rt: HostRuntime) -> Result<(), Fail> {
    let want = "agent Fast budget 12 worst 8 of 12 share 60.00%
agent Slow budget 120 worst 4 of 120 share 120.00% on 1
tightest 2 supply 20 demand 12 left 8
part Fast 12
tightest 20 supply 200 demand 240 left -40 on 1
part Slow 240
ring v 5
ring w 1
";
    compare_report(&rt, rt.alloc(), APART, 20, want)
}

// By each tick, of 20, the agents of processor 0 ask for 10 + 5, and those of processor 2 for 10 + 15; processor 1 has none.
const GAP: &[u8] = b"tick 20; clock c = 1 * tick;
agent A on c budget 10 { body { advance 1 on c; } }
agent B on c processor 2 budget 10 { body { advance 1 on c; } }
agent C on c processor 0 budget 5 { body { advance 1 on c; } }
agent D on c processor 2 budget 15 { body { advance 1 on c; } }";

#[test]
fn a_processor_without_agents_is_reported(rt: HostRuntime) -> Result<(), Fail> {
    let want = "agent A budget 10 worst 2 of 10 share 50.00%
agent B budget 10 worst 2 of 10 share 50.00% on 2
agent C budget 5 worst 2 of 5 share 25.00%
agent D budget 15 worst 2 of 15 share 75.00% on 2
tightest 1 supply 20 demand 15 left 5
part A 10
part C 5
tightest 1 supply 20 demand 0 left 20 on 1
tightest 4 supply 80 demand 100 left -20 on 2
part B 40
part D 60
";
    compare_report(&rt, rt.alloc(), GAP, 4, want)
}

#[test]
fn a_queue_is_reported(rt: HostRuntime) -> Result<(), Fail> {
    let want = "agent A budget 20 worst 8 of 20 share 40.00%
agent B budget 20 worst 6 of 20 share 40.00%
tightest 1 supply 50 demand 40 left 10
part A 20
part B 20
ring g 1
queue s 1
";
    compare_report(&rt, rt.alloc(), MESSAGE, 3, want)
}

// The first action costs 3 of 3, the others 4 of 2, by 3 ticks; nothing is asked for up to date 0. A third of a percent is rounded up.
const SLIPS: &[u8] = b"tick 2; clock c = 3 * tick; input x on c = 0 depth 1;
temporal v of A on c = 0 depth 1; temporal u of A on c = 0 depth 3; stream s to A keep 1 on c;
agent A on c budget 3 { body { v = 1; advance 1 on c budget 2; } }";

#[test]
fn slips_are_reported(rt: HostRuntime) -> Result<(), Fail> {
    let want = "agent A budget 3 worst 4 of 2 share 33.34%
ring x 1
ring v 1
ring u 3
queue s 0
warning agent A: an action from point 1 may cost 4 cycles, and its budget is 2
warning variable u: its depth is 3, and no look goes back behind its last value
warning stream s: nobody sends to it
warning input x: nobody looks at it
";
    compare_report(&rt, rt.alloc(), SLIPS, 0, want)
}

#[test]
fn a_refusal_has_the_line_of_psyc(rt: HostRuntime) -> Result<(), Fail> {
    let cases: [(&[u8], &str); 5] = [
        (b"tick 10; $", "refused lex 1 at 9\n"),
        (b"tick 2147483648;", "refused lex 3 at 5\n"),
        (b"/* ", "refused lex 4 at 0\n"),
        (b"tick 10; clock", "refused parse 1 at 4\n"),
        (b"tick 10; clock c = 1 * d;", "refused rule 2 at 8\n"),
    ];
    for (text, want) in cases {
        compare_line(&rt, rt.alloc(), text, want)?;
    }
    Ok(())
}
