//! Runs plans whose code no compiler made: it was written by hand, instruction by instruction, for programs without statements. Prints the
//! texts of their runs.
#![tactic(auto)]

ghost use Rattle.std.specs.Prelude.{◌≡◌, ◌*◌, ◌≤◌, [], map, IfOk};
ghost use Rattle.psy_base.specs.declared.limits.TheConstants.{QUANTUM};
ghost use Rattle.psy_dates.specs.Plans.{IsPlan};
ghost use Rattle.psy_meaning.specs.Units.{Within};

mod counting;
mod parts;
mod relaying;

use counting::counter;
use psy_base::{Items, Memory};
use psy_dates::Plan;
use psy_door::{Sink, StdSink};
use psy_history::{Script, no_lists};
use psy_kernel::Kernel;
use psy_run::run_loop;
use psy_tree::Unit;
use relaying::relay;
use std::alloc::Global;
use std::process::ExitCode;

// Runs a plan, with neither inputs nor a script.
fn run<S: Sink>(alloc: Global, plan: Plan, out: &mut S) -> Option<()>
    requires { IsPlan plan }
{
    let Ok(inputs) = no_lists(alloc, &plan.unit) else {
        return None;
    };
    let script = Script {
        stalls: Items::new(alloc),
        orders: Items::new(alloc),
        rounds: Items::new(alloc),
    };
    let Ok(mut kernel) = Kernel::boot(alloc, plan, inputs, script) else {
        return None;
    };
    run_loop(&mut kernel, out).ok()
}

// Runs the counter with so many cycles a tick.
fn run_counter<S: Sink>(alloc: Global, quantum: u32, out: &mut S) -> Option<()>
    requires quantum { Within 1 QUANTUM quantum }
    requires supplied { 40 ≤ 10 * quantum }
{
    match counter(alloc, quantum, 40, 30) {
        Ok(plan) => run(alloc, plan, out),
        Err(_) => None,
    }
}

fn run_relay<S: Sink>(alloc: Global, out: &mut S) -> Option<()> {
    match relay(alloc, 100, 40, 40) {
        Ok(plan) => run(alloc, plan, out),
        Err(_) => None,
    }
}

// Runs the counter with ample cycles, and with just as many as may be demanded; then the relay.
fn run_all<S: Sink>(alloc: Global, out: &mut S) -> Option<()> {
    run_counter(alloc, 100, out)?;
    run_counter(alloc, 4, out)?;
    run_relay(alloc, out)
}

fn main(rt: HostRuntime) -> ExitCode {
    let mut out = StdSink::new(rt.stdout());
    match run_all(rt.alloc(), &mut out) {
        Some(()) => ExitCode::from(0),
        None => ExitCode::from(1),
    }
}
