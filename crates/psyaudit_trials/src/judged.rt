//! How texts are judged as traces of a program of two agents.
ghost use Rattle.std.specs.Prelude.{◌≤◌, length, IfSome};
ghost use Rattle.psy_base.specs.declared.limits.TheConstants.{FILE_BYTES};
ghost use Rattle.psy_dates.specs.Plans.{IsPlan};
ghost use Rattle.psy_history.specs.Scripts.{IsScript};

use psy_audit::{AuditFault, Legal, audit};
use psy_base::{Items, limits};
use psy_history::Script;
use psy_kernel::Kernel;
use psy_run::kernel_of;
use psy_tree::Unit;
use std::alloc::Global;

/// A tick has ten cycles. An agent counts by two ticks, and one looks at the count by ten.
const PROGRAM: &[u8] = b"tick 10; clock f = 2 * tick; clock s = 10 * tick;
temporal v of Fast on f = 0 depth 1;
temporal w of Slow on s = 0 depth 1;
agent Fast on f budget 8 { int n = 0; body { n = n + 1; v = n; advance 1 on f; } }
agent Slow on s budget 50 { body { w = past(v, 0); advance 1 on s; } }";

// The program, to be run up to date 2.
fn two_agents(alloc: Global) -> Option<Kernel>
    ensures { IfSome result (λ kernel. IsPlan kernel.plan) }
{
    let text = Vec::from_slice(alloc, PROGRAM).ok()?;
    kernel_of(alloc, &text, 2).ok()
}

// No stalls, and ties go by the order of declaration.
fn no_script(alloc: Global, _unit: &Unit) -> Script
    ensures { IsScript _unit.now result }
{
    Script {
        stalls: Items::new(alloc),
        orders: Items::new(alloc),
        rounds: Items::new(alloc),
    }
}

fn judged_for(alloc: Global, text: &[u8], kernel: &Kernel) -> Result<Legal, AuditFault>
    requires text { length text.now ≤ FILE_BYTES }
    requires plan { IsPlan kernel.now.plan }
{
    let plan = kernel.plan();
    let script = no_script(alloc, &plan.unit);
    audit(alloc, text, plan, &script)
}

fn judged_short(alloc: Global, text: &[u8]) -> Result<Legal, AuditFault>
    requires { length text.now ≤ FILE_BYTES }
{
    match two_agents(alloc) {
        Some(kernel) => judged_for(alloc, text, &kernel),
        None => Err(AuditFault::Memory),
    }
}

/// How a text is judged as a trace of the program up to date 2. Nothing is said of the verdict, so that no proof computes it.
pub fn judged(alloc: Global, text: &[u8]) -> Result<Legal, AuditFault> {
    if text.len() <= limits::FILE_BYTES {
        judged_short(alloc, text)
    } else {
        Err(AuditFault::Memory)
    }
}
