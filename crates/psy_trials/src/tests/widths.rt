//! Numbers of 8, 16 and 64 bits: the code of small programs, and what a machine does with it. Instructions,
//! costs and values are worked out by hand.
use super::code::{binary_at, code_of, compare};
use crate::acting::{Act, Scene, acts_of};
use psy_arith::{Op1, Op2, Width};
use psy_code::{Instr, Sent};
use psy_machine::Step;
use std::alloc::AllocGlobal;
use std::process::Abort;
use std::test::Fail;

const SLOTS: &str =
    "temporal v of A on c = 0 depth 1; agent A on c budget 99 { int8 n = 126; int16 a[2]; int64 t = 0; body { n = n + 1; t = t + n * a[0]; a[n] = t; v = t; advance 1 on c; } }";

const CASTS: &str =
    "agent A on c budget 99 { int8 n = 0; int64 t = 0; body { n = int8(t) + -n; t = int64(n) << ~t; t = !t; n = t < n; n = t && n; advance 1 on c; } }";

const CALL: &str =
    "stream s to A keep 1 on c; int f(int p) { int8 k = 5; int64 m = 7; k = p; m = m * p; return m; } agent A on c budget 99 { int8 n = 0; int64 t = 0; body { n = f(t); t = f(n); send t to s after 0 on c; send n to s after 0 on c; advance 1 on c; } }";

#[test]
fn a_wider_value_is_narrowed_where_it_goes(rt: HostRuntime) -> Result<(), Fail> {
    let slots = [
        Instr::Load(0),
        Instr::Push(1),
        binary_at(&rt, Op2::Add, Width::W32),
        Instr::Cast(Width::W8),
        Instr::Store(0),
        Instr::Load(3),
        Instr::Load(0),
        Instr::Push(0),
        Instr::LoadCell { base: 1, cells: 2 },
        binary_at(&rt, Op2::Mul, Width::W16),
        binary_at(&rt, Op2::Add, Width::W64),
        Instr::Store(3),
        Instr::Load(0),
        Instr::Load(3),
        Instr::Cast(Width::W16),
        Instr::StoreCell { base: 1, cells: 2 },
        Instr::Load(3),
        Instr::Cast(Width::W32),
        Instr::StoreCopy(0),
        Instr::Advance(1),
        Instr::Jump(0),
    ];
    compare(&rt, SLOTS, slots.as_slice(), [0, 20].as_slice())
}

#[test]
fn an_operator_has_the_wider_type_of_its_operands(rt: HostRuntime) -> Result<(), Fail> {
    let casts = [
        Instr::Load(1),
        Instr::Cast(Width::W8),
        Instr::Load(0),
        Instr::Unary(Op1::Neg, Width::W8),
        binary_at(&rt, Op2::Add, Width::W8),
        Instr::Store(0),
        Instr::Load(0),
        Instr::Load(1),
        Instr::Unary(Op1::Flip, Width::W64),
        binary_at(&rt, Op2::Shl, Width::W64),
        Instr::Store(1),
        Instr::Load(1),
        Instr::Unary(Op1::Not, Width::W64),
        Instr::Store(1),
        Instr::Load(1),
        Instr::Load(0),
        binary_at(&rt, Op2::Lt, Width::W64),
        Instr::Cast(Width::W8),
        Instr::Store(0),
        Instr::Load(1),
        Instr::AndTest(23),
        Instr::Load(0),
        Instr::Truth,
        Instr::Cast(Width::W8),
        Instr::Store(0),
        Instr::Advance(1),
        Instr::Jump(0),
    ];
    compare(&rt, CASTS, casts.as_slice(), [0, 26].as_slice())
}

#[test]
fn arguments_results_and_messages_have_32_bits(rt: HostRuntime) -> Result<(), Fail> {
    let call = [
        Instr::Load(0),
        Instr::Cast(Width::W8),
        Instr::Store(1),
        Instr::Load(2),
        Instr::Load(0),
        binary_at(&rt, Op2::Mul, Width::W64),
        Instr::Store(2),
        Instr::Load(2),
        Instr::Cast(Width::W32),
        Instr::Return,
        Instr::Push(0),
        Instr::Return,
        Instr::Load(1),
        Instr::Cast(Width::W32),
        Instr::Call(0),
        Instr::Cast(Width::W8),
        Instr::Store(0),
        Instr::Load(0),
        Instr::Call(0),
        Instr::Store(1),
        Instr::Load(1),
        Instr::Cast(Width::W32),
        Instr::Send {
            stream: 0,
            after: 0,
            clock: 0,
        },
        Instr::Load(0),
        Instr::Send {
            stream: 0,
            after: 0,
            clock: 0,
        },
        Instr::Advance(1),
        Instr::Jump(12),
    ];
    compare(&rt, CALL, call.as_slice(), [12, 26].as_slice())?;
    let code = code_of(&rt, CALL)?;
    assert_eq!(rt; code.functions.len(), 1);
    for function in code.functions.as_slice() {
        assert_eq!(rt; function.locals.as_slice(), [5, 7].as_slice());
    }
    Ok(())
}

const HEAD: &str =
    "tick 99; clock c = 1 * tick; temporal v of A on c = 0 depth 1; stream s to A keep 1 on c; int f(int p) { int8 k = 100; k = k + p; return k; }";

// The first actions of an agent of these slots and statements, so many of them.
fn acts_with(
    rt: &(impl Abort + AllocGlobal),
    slots: &str,
    stmts: &str,
    actions: usize,
) -> Result<Vec<Act>, Fail> {
    let text = format!(in rt.alloc();
        "{HEAD} agent A on c budget 99 {{ {slots} body {{ {stmts} advance 1 on c; }} }}"
    )?;
    let scene = Scene {
        text: text.as_str(),
        agent: 0,
        variable: 0,
        pasts: &[&[0]],
        messages: &[&[]],
    };
    acts_of(rt, &scene, actions)
}

/// Slots, statements, and of each action the cost and `v` at its end.
type Case = (&'static str, &'static str, &'static [(u64, i32)]);

// The jump to the head costs 1 from the second action on.
const WRAPS: [Case; 9] = [
    // 126 + 1, then 128 and -127 modulo 256: 3 and 1 more to narrow, 1 to store, 2 for v, 1 to end.
    (
        "int8 n = 126;",
        "n = n + 1; v = n;",
        &[(8, 127), (9, -128), (9, -127)],
    ),
    // 40,000 - 65,536, and 20,000 more; 7 for the cell, 3 for v, 1 to end.
    (
        "int16 a[2];",
        "a[1] = a[1] + 20000; v = a[1];",
        &[(11, 20_000), (12, -25_536), (12, -5_536)],
    ),
    // 300 * 300 = 90,000 = 65,536 + 24,464; 24,464 squared = 9,132 * 65,536 + 12,544. Nothing is narrowed.
    (
        "int16 h = 300;",
        "h = h * h; v = h;",
        &[(7, 24_464), (8, 12_544)],
    ),
    // t is 4,294,967,294, then twice that, then four times: a fourth is v, at last 2 ^ 32 - 2, so -2.
    (
        "int64 t = 2147483647;",
        "t = t + t; v = t / 4;",
        &[(10, 1_073_741_823), (11, 2_147_483_647), (11, -2)],
    ),
    // At 64 bits the sum is greater than t.
    ("int64 t = 2147483647;", "v = t + 1 > t;", &[(7, 1)]),
    // At 8 bits 127 + 127 is -2.
    ("int8 n = 127;", "v = n + n > 0;", &[(7, 0)]),
    // By 9 modulo 8; -128 is its own negative.
    ("int8 n = 1; int8 k = 9;", "v = n << k;", &[(5, 2)]),
    ("int8 n = -128;", "v = -n;", &[(4, -128)]),
    // f gives 200 - 256 in 7; n * 4 is -224, which is 32 at 8 bits. 10 for n, 7 for v, 1 to end.
    (
        "int n = 0;",
        "n = f(100); v = n + int8(n * 4);",
        &[(18, -24), (19, -24)],
    ),
];

// Compares what the actions of an agent of these slots and statements come to.
fn expect_values(rt: &(impl Abort + AllocGlobal), case: &Case) -> Result<(), Fail> {
    let &(slots, stmts, wanted) = case;
    let acts = acts_with(rt, slots, stmts, wanted.len())?;
    assert_eq!(rt; acts.len(), wanted.len(), "actions of {stmts}");
    for (act, (cost, copy)) in acts.iter().zip(wanted.iter()) {
        assert_eq!(rt; act.end, Step::Ended(1), "the end of {stmts}");
        assert_eq!(rt; (act.cost, act.copy), (*cost, *copy), "{stmts}");
    }
    Ok(())
}

#[test]
fn values_keep_to_their_types(rt: HostRuntime) -> Result<(), Fail> {
    for case in &WRAPS {
        expect_values(&rt, case)?;
    }
    Ok(())
}

#[test]
fn a_message_has_what_is_left_at_32_bits(rt: HostRuntime) -> Result<(), Fail> {
    // 65,537 squared is 4,295,098,369, which is 2 ^ 32 + 131,073.
    let stmts = "t = t * t; send t to s after 0 on c;";
    let acts = acts_with(&rt, "int64 t = 65537;", stmts, 1)?;
    assert_eq!(rt; acts.len(), 1);
    let sent = Sent {
        stream: 0,
        value: 131_073,
        after: 0,
        clock: 0,
    };
    assert_eq!(rt; acts[0].look.sends.as_slice(), [sent].as_slice());
    assert_eq!(rt; acts[0].cost, 8);
    Ok(())
}
