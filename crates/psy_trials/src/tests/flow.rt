//! Which points follow and which looks may come, by tables of small bodies.
ghost use Rattle.std.specs.Prelude.{◌≡◌, slice_get, Some, IfOk};
ghost use Rattle.psy_meaning.specs.Units.{IsOfText};
ghost use Rattle.psy_flow.specs.Agents.{IsOfSome};

use crate::texts::unit_of;
use psy_flow::{looks, most_sends, next_points, worst};
use psy_tree::{AgentDecl, Unit};
use std::alloc::AllocGlobal;
use std::process::Abort;
use std::test::Fail;

const HEAD: &str =
    "tick 20; clock c = 1 * tick; temporal v of A on c = 0 depth 1; temporal w of A on c = 0 depth 1; stream s to A keep 1 on c; stream r to A keep 1 on c;";

const FUNCTIONS: &str =
    "int f(int p) { if (p) { return 1; } } int g(int p) { return f(p) + f(p); }";

/// The unit of an agent of these statements.
pub fn unit_with(rt: &(impl Abort + AllocGlobal), stmts: &str) -> Result<Unit, Fail>
    ensures { IfOk result (λ unit. IsOfText unit) }
{
    let text = format!(in rt.alloc();
        "{HEAD} {FUNCTIONS} agent A on c budget 14 {{ int n = 0; int8 m = 0; int64 t = 0; body {{ {stmts} }} }}"
    )?;
    unit_of(rt, text.as_str())
}

fn first_agent<'a>(rt: &impl Abort, unit: &'a Unit) -> &'a AgentDecl
    requires { IsOfText unit.now }
    ensures some { IsOfSome result.now }
    ensures first { slice_get unit.now.agents 0 ≡ Some result.now }
{
    assert!(rt; !unit.agents.is_empty());
    &unit.agents.as_slice()[0]
}

/// Statements, and from each point the points that follow and the greatest cost.
const POINTS: [(&str, &[(&[u32], u64)]); 9] = [
    ("n = n + 1; v = n; advance 1 on c;", &[(&[1], 7), (&[1], 8)]),
    (
        "n = n + 1; v = n; if (n < 2) { advance 3 on c; } else { advance 1 on c; }",
        &[(&[1, 2], 11), (&[1, 2], 13), (&[1, 2], 12)],
    ),
    (
        "advance 1 on c; advance 2 on c; if (n) { advance 3 on c; }",
        &[(&[1], 1), (&[2], 1), (&[1, 3], 4), (&[1], 2)],
    ),
    // Each test costs 2, and a turn 1 more.
    (
        "while (n) { advance 1 on c; } advance 2 on c;",
        &[(&[1, 2], 3), (&[1, 2], 4), (&[1, 2], 4)],
    ),
    // Entry 1, three turns of 6, the last test 3, the advance 1.
    (
        "while (n) max 3 { send n to s after 0 on c; } advance 1 on c;",
        &[(&[1], 23), (&[1], 24)],
    ),
    // The sum has 3 and is narrowed for 1 more; `v` has room for what is narrower.
    ("m = m + 1; v = m; advance 1 on c;", &[(&[1], 8), (&[1], 9)]),
    // Each statement narrows for 1: as it says, for an argument, and for `v`.
    (
        "n = int16(n); n = f(t); v = t; advance 1 on c;",
        &[(&[1], 15), (&[1], 16)],
    ),
    // The call of f: 2 for the test, and 2 to return; that of g: 2 calls of 1 + 1 + 4, the sum, the return.
    (
        "n = f(n); n = g(n) && f(n); advance 1 on c;",
        &[(&[1], 33), (&[1], 34)],
    ),
    (
        "while (n) max 65536 { while (n) max 65536 { } } advance 1 on c;",
        &[(&[1], 1_000_000_000), (&[1], 1_000_000_000)],
    ),
];

fn expect_points(
    rt: &(impl Abort + AllocGlobal),
    unit: &Unit,
    wanted: &[(&[u32], u64)],
) -> Result<(), Fail>
    requires { IsOfText unit.now }
{
    let agent = first_agent(rt, unit);
    assert_eq!(rt; agent.points.len(), wanted.len());
    assert!(rt; agent.points.len() <= 256);
    for (point, (next, cost)) in wanted.iter().enumerate() {
        assert!(rt; point < agent.points.len());
        let found = next_points(rt.alloc(), agent, point as u32)?;
        assert_eq!(rt; found.as_slice(), *next, "behind point {point}");
        assert_eq!(rt; worst(unit, 0, point as u32), *cost, "from point {point}");
    }
    Ok(())
}

#[test]
fn points_follow_with_their_costs(rt: HostRuntime) -> Result<(), Fail> {
    for (stmts, wanted) in POINTS {
        let unit = unit_with(&rt, stmts)?;
        expect_points(&rt, &unit, wanted)?;
    }
    Ok(())
}

const BRANCHES: &str =
    "if (n) { send 1 to s after 0 on c; send 2 to s after 0 on c; advance 1 on c; send 3 to r after 0 on c; } else { send 4 to s after 0 on c; advance 2 on c; }";

const MANY: &str =
    "while (n) max 65536 { send 1 to s after 0 on c; send 2 to s after 0 on c; } advance 1 on c;";

/// Statements, a point, the next one, a stream, and the most sends.
const SENDS: [(&str, u32, u32, u32, u64); 9] = [
    (BRANCHES, 0, 1, 0, 2),
    (BRANCHES, 0, 2, 0, 1),
    (BRANCHES, 0, 1, 1, 0),
    (BRANCHES, 1, 1, 0, 2),
    (BRANCHES, 1, 2, 1, 1),
    (BRANCHES, 2, 2, 1, 0),
    (BRANCHES, 0, 3, 0, 0),
    (MANY, 0, 1, 0, 65_537),
    (MANY, 1, 1, 1, 0),
];

#[test]
fn most_sends_on_the_way_to_a_point(rt: HostRuntime) -> Result<(), Fail> {
    for (stmts, point, to, stream, wanted) in SENDS {
        let unit = unit_with(&rt, stmts)?;
        let agent = first_agent(&rt, &unit);
        assert!(rt; (point as usize) < agent.points.len());
        let sends = most_sends(agent, point, to, stream);
        assert_eq!(rt; sends, wanted, "from {point} to {to} by {stream}: {stmts}");
    }
    Ok(())
}

const BEHIND: &str = "if (n) { advance 1 on c; n = past(v, 0); } advance 2 on c;";

/// Statements, a point, a variable, and whether it may be looked at.
const LOOKS: [(&str, u32, u32, bool); 6] = [
    ("n = n && past(v, 0); advance 1 on c;", 0, 0, true),
    ("n = n && past(v, 0); advance 1 on c;", 0, 1, false),
    ("v = w; advance 1 on c;", 0, 1, false),
    (BEHIND, 0, 0, false),
    (BEHIND, 1, 0, true),
    (BEHIND, 2, 0, false),
];

#[test]
fn looks_on_some_way(rt: HostRuntime) -> Result<(), Fail> {
    for (stmts, point, variable, wanted) in LOOKS {
        let unit = unit_with(&rt, stmts)?;
        let agent = first_agent(&rt, &unit);
        assert!(rt; (point as usize) < agent.points.len());
        assert_eq!(rt;
            looks(agent, point, variable),
            wanted,
            "from {point}: {stmts}"
        );
    }
    Ok(())
}
