//! How deep machines grow, by tables of small programs.
use crate::texts::unit_of;
use psy_flow::{Depths, depth_of_stack};
use std::alloc::AllocGlobal;
use std::process::Abort;
use std::test::Fail;

// Statements of the first agent, and the operands and cells that are wanted.
type Case = (&'static str, u64, u64);

const HEAD: &str =
    "tick 100; clock c = 10 * tick; temporal v of A on c = 0 depth 1; stream s to A keep 1 on c;";

// The depth of an agent of a program.
fn depth_in(rt: &(impl Abort + AllocGlobal), text: &str, agent: u32) -> Result<Depths, Fail> {
    let unit = unit_of(rt, text)?;
    assert!(rt; (agent as usize) < unit.agents.len(), "no such agent");
    Ok(depth_of_stack(&unit, agent))
}

// Compares the depths of an agent of these statements, which may call these functions.
fn compare(rt: &(impl Abort + AllocGlobal), functions: &str, cases: &[Case]) -> Result<(), Fail> {
    for &(stmts, operands, cells) in cases {
        let text = format!(in rt.alloc();
            "{HEAD} {functions} agent A on c budget 9 {{ int x = 0; int8 b = 0; int a[4]; body {{ {stmts} advance 1 on c; }} }}"
        )?;
        let depths = depth_in(rt, text.as_str(), 0)?;
        assert_eq!(rt; depths, Depths { operands, cells }, "{stmts}");
    }
    Ok(())
}

#[test]
fn operators_hold_their_left_side(rt: HostRuntime) -> Result<(), Fail> {
    compare(
        &rt,
        "",
        &[
            ("", 0, 0),
            ("v = 7;", 1, 0),
            ("v = v + 1;", 2, 0),
            ("v = 1 + (2 + (3 + 4));", 4, 0),
            ("v = ((1 + 2) + 3) + 4;", 2, 0),
            ("v = (1 + 2) * (3 + 4);", 3, 0),
            ("v = -(1 + ~2);", 2, 0),
            ("v = a[1 + (2 + 3)];", 3, 0),
            ("v = 1 + past(v, 0) + ready(s);", 2, 0),
        ],
    )
}

#[test]
fn a_narrowing_holds_its_operand(rt: HostRuntime) -> Result<(), Fail> {
    compare(
        &rt,
        "int f(int p, int q) { int64 k = 2; return k + (p + q); }",
        &[
            ("b = 1;", 1, 0),
            ("b = 1 + (2 + 3);", 3, 0),
            ("v = 1 + int16(2 + 3);", 3, 0),
            // The arguments, and in the call what `return` narrows
            ("v = f(1, int8(2));", 3, 3),
        ],
    )
}

#[test]
fn what_may_be_left_out_finds_nothing_of_the_left_side(rt: HostRuntime) -> Result<(), Fail> {
    compare(
        &rt,
        "",
        &[
            ("v = 1 && 2;", 1, 0),
            ("v = 1 || (2 && (3 || 4));", 1, 0),
            ("v = 1 && (2 + 3);", 2, 0),
            ("v = 1 + (2 && 3);", 2, 0),
            ("v = 1 + (2 + 3) || 4;", 3, 0),
        ],
    )
}

#[test]
fn statements_hold_what_their_expressions_hold(rt: HostRuntime) -> Result<(), Fail> {
    compare(
        &rt,
        "",
        &[
            ("x = 1; v = x + 2; x = 3;", 2, 0),
            ("a[1] = 2;", 2, 0),
            ("a[1 + (2 + 3)] = 4;", 3, 0),
            ("a[1 + 2] = 3 + (4 + 5);", 4, 0),
            ("send 1 + 2 to s after 0 on c;", 2, 0),
            ("if (1 + 2) { }", 2, 0),
            ("if (x) { x = 1 + (2 + 3); } else { x = 1 + 2; }", 3, 0),
            ("if (x) { x = 1 + 2; } else { x = 1 + (2 + 3); }", 3, 0),
            ("while (x + 1) max 3 { x = 1 + (2 + 3); }", 3, 0),
            ("while (1 + (2 + 3)) { x = 1; advance 1 on c; }", 3, 0),
        ],
    )
}

#[test]
fn arguments_are_on_top_of_one_another(rt: HostRuntime) -> Result<(), Fail> {
    compare(
        &rt,
        "int f(int p, int q, int r) { return p; }",
        &[
            ("v = f(1, 2, 3);", 3, 3),
            ("v = f(1 + (2 + (3 + 4)), 5, 6);", 4, 3),
            ("v = f(1, 2 + 3, 4 + 5);", 4, 3),
            ("v = 1 + f(1, 2, 3);", 4, 3),
            ("v = f(1, f(2, 3, 4), 5);", 4, 3),
        ],
    )
}

#[test]
fn a_call_holds_a_value_and_what_its_function_holds(rt: HostRuntime) -> Result<(), Fail> {
    compare(
        &rt,
        "int f() { } int g(int p) { return 1 + (2 + (3 + 4)); }",
        &[
            ("", 0, 0),
            ("v = f();", 1, 0),
            ("v = 1 + f();", 2, 0),
            ("v = g(1);", 4, 1),
            ("v = 1 + g(1);", 5, 1),
            ("v = g(1 + (2 + (3 + (4 + 5))));", 5, 1),
        ],
    )
}

// The cells of a call of each: `f` has 1 parameter, 1 local and 1 loop, so 3; `g` has 2 parameters, 1
// local, 4 loops and the 3 of `f`, so 10; `h` has 1 local and the 10 of `g`, the greater of those that it
// calls, so 11.
const CALLING: &str = "
    int f(int p) { int k = 0; while (k) max 9 { k = k + 1; } return k; }
    int g(int p, int q) {
        int m = 1;
        while (m) max 2 { while (p) max 3 { p = f(m); } }
        if (q) { while (q) max 4 { q = 0; } } else { while (q) max 5 { q = 0; } }
        return f(p) + f(q);
    }
    int h() { int m = 0; m = f(1); m = g(2, 3); return f(m); }
";

#[test]
fn open_calls_hold_parameters_locals_and_loops(rt: HostRuntime) -> Result<(), Fail> {
    compare(
        &rt,
        CALLING,
        &[
            ("v = f(1);", 2, 3),
            ("v = g(1, 2);", 3, 10),
            ("v = h();", 3, 11),
            ("v = f(1) + g(2, 3);", 4, 10),
            ("if (v) { v = f(1); } else { while (h()) max 2 { } }", 3, 11),
            ("while (v) max 7 { v = 1; }", 1, 0),
        ],
    )
}

#[test]
fn each_agent_has_its_own_depth(rt: HostRuntime) -> Result<(), Fail> {
    let text = "tick 100; clock c = 10 * tick; int f(int p) { return p; }
        agent A on c budget 9 { int x = 0; body { x = 1 + (2 + 3); advance 1 on c; } }
        agent B on c budget 9 { int x = 0; body { x = f(x); advance 1 on c; } }
        agent C on c budget 9 { body { advance 1 on c; } }";
    for (agent, operands, cells) in [(0, 3, 0), (1, 1, 1), (2, 0, 0)] {
        let depths = depth_in(&rt, text, agent)?;
        assert_eq!(rt; depths, Depths { operands, cells }, "agent {agent}");
    }
    Ok(())
}
