//! The kernel: the processors of a run, one unit of a cycle after the other.

mod boot;
mod date;
mod freeze;
mod last;
mod lines;
mod open;
mod round;
mod slice;
mod stage;
mod tick;
mod unit;

use crate::engine::Engine;
use crate::seen::Seen;
use std::marker::Model;

/// The unit that was done last: of this processor at this cycle, the agent that got it, and what its action looked at.
#[derive(Clone, Copy, Debug)]
struct LastUnit {
    processor: u32,
    cycle: u64,
    ran: Option<u32>,
    seen: Option<Seen>,
}

/// The run of a plan. Contracts see how many dates and cycles of it were done, how many units of the next cycle, how many lines of the last
/// date were given, and which unit was the last step, where it was one. Its lines and its summary are those of the dated history.
#[derive(Drop)]
pub struct Kernel {
    engine: Engine,
    /// How many cycles were done, and how many units of the next one.
    cycles: u64,
    units: u32,
    /// From the first processor to the last.
    declared: Vec<u32>,
    /// How many of the script's rounds have come into force.
    turned: usize,
    /// The unit that was the last step.
    last: Option<LastUnit>,
}

impl Model for Kernel {
    ghost use Rattle.std.specs.Coded.{codes};
    ghost use Rattle.psy_tree.specs.contracts.unit.Expr as expr;
    ghost use Rattle.psy_tree.specs.contracts.unit.Stmt as stmt;
    ghost use Rattle.psy_kernel.specs.Progress.{Progress};

    ghost Value = { Progress };

    ghost coded = { Prim.hlevel (codes, expr.the_row.coded, stmt.the_row.coded) };

    ghost use Rattle.psy_kernel.specs.Kernels.{KernelStands, progress_of};

    ghost view = { progress_of };

    ghost invariant = { KernelStands };
}
