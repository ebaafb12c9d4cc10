//! Steps an agent's machine so many times through a loop with arithmetic, an array and a call, and says
//! how many actions ended and what their last one computed. `bench/machine` times it.
//! It may know the machine alone.
#![tactic(auto)]

ghost use Rattle.std.specs.Prelude.{◌≡◌};
ghost use Rattle.psy_bench.specs.Loop.{IsLoop, loop_code};

mod looping;
mod still;

use psy_base::Memory;
use psy_code::Code;
use psy_machine::{Machine, Step};
use std::env;
use std::process::ExitCode;
use std::rt::Env;
use still::Still;

/// One instruction of the loop.
#[inline(always)]
fn step(machine: &mut Machine, code: &Code, look: &mut Still) -> Step
    requires code { code.now ≡ loop_code }
    requires stands { IsLoop machine.old }
    ensures { IsLoop machine.new }
{
    machine.step(code, look)
}

/// How many actions ended within so many steps.
#[inline(never)]
fn actions_within(steps: u64, machine: &mut Machine, code: &Code) -> u64
    requires code { code.now ≡ loop_code }
    requires stands { IsLoop machine.old }
    ensures { IsLoop machine.new }
{
    let mut look = Still {
        published: 0,
        noted: None,
        sent: None,
    };
    let mut actions: u64 = 0;
    for _ in 0..steps {
        if let Step::Ended(_) = step(machine, code, &mut look) {
            actions = actions.wrapping_add(1);
        }
    }
    actions
}

// The number after the program's name.
fn steps(rt: &(impl Env + AllocGlobal)) -> Option<u64> {
    let word = env::args(rt).ok()?.nth(1)?;
    word.parse().ok()
}

fn main(rt: HostRuntime) -> ExitCode {
    let Some(steps) = steps(&rt) else {
        return ExitCode::from(2);
    };
    let Ok(code) = looping::code(rt.alloc()) else {
        return ExitCode::from(8);
    };
    let Ok(mut machine) = Machine::new(rt.alloc(), &code, 0) else {
        return ExitCode::from(8);
    };
    let actions = actions_within(steps, &mut machine, &code);
    match println!(rt; "{actions} actions, {}", machine.copy(0)) {
        Ok(()) => ExitCode::from(0),
        Err(_) => ExitCode::from(4),
    }
}
