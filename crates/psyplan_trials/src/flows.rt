//! Flows that were worked out by hand.
use crate::texts::{COUNT, MESSAGE, compare_flow};
use std::test::Fail;

#[test]
fn who_looks_is_fed(rt: HostRuntime) -> Result<(), Fail> {
    let want = "digraph flow {
  rankdir=LR;
  \"Fast\" [shape=box];
  \"Slow\" [shape=box];
  \"Fast\" -> \"Slow\" [label=\"v\"];
}
";
    compare_flow(&rt, rt.alloc(), COUNT, want)
}

#[test]
fn who_receives_is_fed(rt: HostRuntime) -> Result<(), Fail> {
    let want = "digraph flow {
  rankdir=LR;
  \"A\" [shape=box];
  \"B\" [shape=box];
  \"A\" -> \"B\" [label=\"s\", style=dashed];
}
";
    compare_flow(&rt, rt.alloc(), MESSAGE, want)
}

// A looks twice at the input, and at what it published itself; B looks under a condition and sends in a loop's second branch.
const MANY: &[u8] = b"tick 1000; clock c = 10 * tick; input x on c = 0 depth 2;
temporal v of A on c = 0 depth 2; temporal w of B on c = 0 depth 1;
input y on c = 0 depth 1; stream s to A keep 1 on c; stream t to A keep 1 on c;
agent A on c budget 90 { body { v = past(v, 1) + past(x, 0) - past(x, 1); advance 1 on c; } }
agent B on c budget 90 { int n = 0; body {
  while (n < past(v, 0)) max 2 { if (n == 1) { n = 2; } else { send n to s after 0 on c; } n = n + 1; }
  send past(v, 0) to s after 1 on c; advance 1 on c; } }";

#[test]
fn each_arrow_is_drawn_once(rt: HostRuntime) -> Result<(), Fail> {
    let want = "digraph flow {
  rankdir=LR;
  \"A\" [shape=box];
  \"B\" [shape=box];
  \"x\" [shape=oval];
  \"y\" [shape=oval];
  \"x\" -> \"A\" [label=\"x\"];
  \"A\" -> \"A\" [label=\"v\"];
  \"A\" -> \"B\" [label=\"v\"];
  \"B\" -> \"A\" [label=\"s\", style=dashed];
}
";
    compare_flow(&rt, rt.alloc(), MANY, want)
}

#[test]
fn no_agents_are_drawn(rt: HostRuntime) -> Result<(), Fail> {
    compare_flow(
        &rt,
        rt.alloc(),
        b"tick 10;",
        "digraph flow {\n  rankdir=LR;\n}\n",
    )
}
