//! The code of small programs.
use crate::texts::unit_of;
use psy_arith::{Op1, Op2, Width};
use psy_code::{Binary, Code, CopyInit, Instr};
use psy_gen::generate;
use std::alloc::AllocGlobal;
use std::process::Abort;
use std::test::Fail;

const COUNTER: &str =
    "temporal v of A on c = 6 depth 2; agent A on c budget 99 { int n = 0; body { n = n + 1; v = n; advance 1 on c; } }";

const CHOICE: &str =
    "agent A on c budget 99 { int n = 0; body { if (n < 2) { n = -1; } advance 1 on c; } }";

const LAZY: &str =
    "agent A on c budget 99 { int n = 0; body { if (n && 2) { n = 3; } else { n = 4; } n = n || 5; advance 1 on c; } }";

const NESTED: &str =
    "agent A on c budget 99 { int n = 0; body { while (n) max 3 { while (n) max 4 { n = 1; } } while (n) max 5 { } advance 1 on c; } }";

const TIMED: &str =
    "agent A on c budget 99 { int n = 0; body { while (n) { n = 2; advance 1 on c; } if (n) { advance 2 on c; } else { n = 3; advance 3 on c; } } }";

const ARRAYS: &str =
    "agent A on c budget 99 { int n = 7; int a[3]; int b[2]; body { b[n] = a[0]; advance 1 on c; } }";

const CALL: &str =
    "int f(int x, int y) { int z = 5; while (x) max 2 { return x - y; } z = x; } agent A on c budget 99 { int n = 0; body { n = f(n, 9); advance 1 on c; } }";

const STREAM: &str =
    "temporal v of A on c = 0 depth 2; stream s to A keep 4 on c; agent A on c budget 99 { int n = 0; body { n = ready(s) + take(s); v = past(v, 1) + v; send n to s after 2 on c; advance 1 on c; } }";

const TWO: &str =
    "agent A on c budget 99 { body { advance 1 on c; } } agent B on c budget 99 { body { advance 1 on c; } }";

/// The code of a program that begins with its clock.
pub fn code_of(rt: &(impl Abort + AllocGlobal), rest: &str) -> Result<Code, Fail> {
    let text = format!(in rt.alloc(); "tick 10; clock c = 1 * tick; {rest}")?;
    let unit = unit_of(rt, text.as_str())?;
    Ok(generate(rt.alloc(), &unit)?)
}

/// The instruction of an operator that takes both its operands, at a width.
pub fn binary_at(rt: &impl Abort, op: Op2, width: Width) -> Instr {
    let operator = Binary::new(op).expect(rt, "an operator that takes both its operands");
    Instr::Binary(operator, width)
}

// The same at 32 bits.
fn binary(rt: &impl Abort, op: Op2) -> Instr {
    binary_at(rt, op, Width::W32)
}

/// Compares the code, and where the actions of the last agent begin.
pub fn compare(
    rt: &(impl Abort + AllocGlobal),
    text: &str,
    instrs: &[Instr],
    points: &[u32],
) -> Result<(), Fail> {
    let code = code_of(rt, text)?;
    assert_eq!(rt; code.instrs.as_slice(), instrs, "the code of {text}");
    let agents = code.agents.as_slice();
    assert!(rt; !agents.is_empty());
    let last = &agents[agents.len() - 1];
    assert_eq!(rt; last.points.as_slice(), points, "the points of {text}");
    Ok(())
}

#[test]
fn statements_in_a_row(rt: HostRuntime) -> Result<(), Fail> {
    let counter = [
        Instr::Load(0),
        Instr::Push(1),
        binary(&rt, Op2::Add),
        Instr::Store(0),
        Instr::Load(0),
        Instr::StoreCopy(0),
        Instr::Advance(1),
        Instr::Jump(0),
    ];
    compare(&rt, COUNTER, counter.as_slice(), [0, 7].as_slice())?;
    let arrays = [
        Instr::Load(0),
        Instr::Push(0),
        Instr::LoadCell { base: 1, cells: 3 },
        Instr::StoreCell { base: 4, cells: 2 },
        Instr::Advance(1),
        Instr::Jump(0),
    ];
    compare(&rt, ARRAYS, arrays.as_slice(), [0, 5].as_slice())?;
    let stream = [
        Instr::Ready(0),
        Instr::Take(0),
        binary(&rt, Op2::Add),
        Instr::Store(0),
        Instr::Past {
            variable: 0,
            back: 1,
        },
        Instr::LoadCopy(0),
        binary(&rt, Op2::Add),
        Instr::StoreCopy(0),
        Instr::Load(0),
        Instr::Send {
            stream: 0,
            after: 2,
            clock: 0,
        },
        Instr::Advance(1),
        Instr::Jump(0),
    ];
    compare(&rt, STREAM, stream.as_slice(), [0, 11].as_slice())
}

#[test]
fn choices(rt: HostRuntime) -> Result<(), Fail> {
    let choice = [
        Instr::Load(0),
        Instr::Push(2),
        binary(&rt, Op2::Lt),
        Instr::JumpZero(7),
        Instr::Push(1),
        Instr::Unary(Op1::Neg, Width::W32),
        Instr::Store(0),
        Instr::Advance(1),
        Instr::Jump(0),
    ];
    compare(&rt, CHOICE, choice.as_slice(), [0, 8].as_slice())?;
    let lazy = [
        Instr::Load(0),
        Instr::AndTest(4),
        Instr::Push(2),
        Instr::Truth,
        Instr::JumpZero(8),
        Instr::Push(3),
        Instr::Store(0),
        Instr::Jump(10),
        Instr::Push(4),
        Instr::Store(0),
        Instr::Load(0),
        Instr::OrTest(14),
        Instr::Push(5),
        Instr::Truth,
        Instr::Store(0),
        Instr::Advance(1),
        Instr::Jump(0),
    ];
    compare(&rt, LAZY, lazy.as_slice(), [0, 16].as_slice())
}

#[test]
fn loops(rt: HostRuntime) -> Result<(), Fail> {
    let nested = [
        Instr::Zero(0),
        Instr::Load(0),
        Instr::Guard {
            counter: 0,
            bound: 3,
        },
        Instr::JumpZero(12),
        Instr::Zero(1),
        Instr::Load(0),
        Instr::Guard {
            counter: 1,
            bound: 4,
        },
        Instr::JumpZero(11),
        Instr::Push(1),
        Instr::Store(0),
        Instr::Jump(5),
        Instr::Jump(1),
        Instr::Zero(2),
        Instr::Load(0),
        Instr::Guard {
            counter: 2,
            bound: 5,
        },
        Instr::JumpZero(17),
        Instr::Jump(13),
        Instr::Advance(1),
        Instr::Jump(0),
    ];
    compare(&rt, NESTED, nested.as_slice(), [0, 18].as_slice())?;
    let timed = [
        Instr::Load(0),
        Instr::JumpZero(6),
        Instr::Push(2),
        Instr::Store(0),
        Instr::Advance(1),
        Instr::Jump(0),
        Instr::Load(0),
        Instr::JumpZero(10),
        Instr::Advance(2),
        Instr::Jump(13),
        Instr::Push(3),
        Instr::Store(0),
        Instr::Advance(3),
        Instr::Jump(0),
    ];
    compare(&rt, TIMED, timed.as_slice(), [0, 5, 9, 13].as_slice())
}

#[test]
fn functions_and_agents(rt: HostRuntime) -> Result<(), Fail> {
    let call = [
        Instr::Zero(0),
        Instr::Load(0),
        Instr::Guard {
            counter: 0,
            bound: 2,
        },
        Instr::JumpZero(9),
        Instr::Load(0),
        Instr::Load(1),
        binary(&rt, Op2::Sub),
        Instr::Return,
        Instr::Jump(1),
        Instr::Load(0),
        Instr::Store(2),
        Instr::Push(0),
        Instr::Return,
        Instr::Load(0),
        Instr::Push(9),
        Instr::Call(0),
        Instr::Store(0),
        Instr::Advance(1),
        Instr::Jump(13),
    ];
    compare(&rt, CALL, call.as_slice(), [13, 18].as_slice())?;
    let two = [
        Instr::Advance(1),
        Instr::Jump(0),
        Instr::Advance(1),
        Instr::Jump(2),
    ];
    compare(&rt, TWO, two.as_slice(), [2, 3].as_slice())
}

#[test]
fn what_a_machine_begins_with(rt: HostRuntime) -> Result<(), Fail> {
    let code = code_of(&rt, ARRAYS)?;
    for agent in code.agents.as_slice() {
        assert_eq!(rt; agent.cells.as_slice(), [7, 0, 0, 0, 0, 0].as_slice());
        assert!(rt; agent.copies.is_empty());
        assert_eq!(rt; (agent.counters, agent.stack, agent.frames), (0, 2, 0));
    }
    let code = code_of(&rt, COUNTER)?;
    let first = CopyInit {
        variable: 0,
        init: 6,
    };
    for agent in code.agents.as_slice() {
        assert_eq!(rt; agent.copies.as_slice(), [first].as_slice());
    }
    assert_eq!(rt; code.agents.len(), 1);
    Ok(())
}

#[test]
fn what_a_call_needs(rt: HostRuntime) -> Result<(), Fail> {
    let code = code_of(&rt, CALL)?;
    for function in code.functions.as_slice() {
        assert_eq!(rt;
            (function.entry, function.params, function.counters),
            (0, 2, 1)
        );
        assert_eq!(rt; function.locals.as_slice(), [5].as_slice());
    }
    assert_eq!(rt; code.functions.len(), 1);
    for agent in code.agents.as_slice() {
        assert_eq!(rt; (agent.counters, agent.stack, agent.frames), (0, 2, 4));
    }
    Ok(())
}
