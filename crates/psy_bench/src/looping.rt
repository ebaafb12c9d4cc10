//! The code that the benchmark runs: a loop of arithmetic.
ghost use Rattle.std.specs.Prelude.{◌≡◌, ◌≢◌, IfOk};
ghost use Rattle.psy_arith.specs.declared.operators.Op2.TheVariants.{AndAnd, OrOr};
ghost use Rattle.psy_arith.specs.declared.width.Width.TheVariants.{W32};
ghost use Rattle.psy_code.specs.declared.instr.Instr.TheVariants as instr;
ghost use Rattle.psy_bench.specs.Loop.{instrs, loop_code};

use psy_arith::{Op2, Width};
use psy_base::{Items, Memory};
use psy_code::{AgentCode, Binary, Code, CopyInit, FunctionCode, Instr};
use std::alloc::Global;

// The instruction of an operator that takes both its operands
fn binary(op: Op2) -> Instr
    requires { (op ≢ AndAnd) × (op ≢ OrOr) }
    ensures { result ≡ instr.Binary op W32 }
{
    Instr::Binary(Binary::new(op).unwrap(), Width::W32)
}

// The agent's instructions, and behind them those of the function
fn instrs() -> [Instr; 33]
    ensures { result ≡ instrs }
{
    [
        Instr::Zero(0),
        // while (n < 8) max 8
        Instr::Load(0),
        Instr::Push(8),
        binary(Op2::Lt),
        Instr::Guard {
            counter: 0,
            bound: 8,
        },
        Instr::JumpZero(21),
        // total = total + f(n);
        Instr::Load(1),
        Instr::Load(0),
        Instr::Call(0),
        binary(Op2::Add),
        Instr::Store(1),
        // a[n & 3] = total;
        Instr::Load(0),
        Instr::Push(3),
        binary(Op2::And),
        Instr::Load(1),
        Instr::StoreCell { base: 2, cells: 4 },
        // n = n + 1;
        Instr::Load(0),
        Instr::Push(1),
        binary(Op2::Add),
        Instr::Store(0),
        Instr::Jump(1),
        // n = 0; v = total; advance
        Instr::Push(0),
        Instr::Store(0),
        Instr::Load(1),
        Instr::StoreCopy(0),
        Instr::Advance(1),
        Instr::Jump(0),
        // f(x) with `int c = 5;`: return x * 3 - c;
        Instr::Load(0),
        Instr::Push(3),
        binary(Op2::Mul),
        Instr::Load(1),
        binary(Op2::Sub),
        Instr::Return,
    ]
}

/// The code of an agent that adds up a function of 0 to 7 at each action.
pub fn code(alloc: Global) -> Result<Code, Memory>
    ensures { IfOk result (λ code. code ≡ loop_code) }
{
    let mut agents = Items::new(alloc);
    agents.push(AgentCode {
        points: Items::from_slice(alloc, &[0, 26])?,
        cells: Items::from_slice(alloc, &[0, 0, 0, 0, 0, 0])?,
        counters: 1,
        copies: Items::from_slice(
            alloc,
            &[CopyInit {
                variable: 0,
                init: 0,
            }],
        )?,
        stack: 3,
        frames: 2,
    })?;
    let mut functions = Items::new(alloc);
    functions.push(FunctionCode {
        entry: 27,
        params: 1,
        locals: Items::from_slice(alloc, &[5])?,
        counters: 0,
    })?;
    Ok(Code {
        instrs: Items::from_slice(alloc, &instrs())?,
        agents,
        functions,
    })
}
