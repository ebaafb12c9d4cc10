//! The ways in which a kernel may be brought from date to date.
ghost use Rattle.std.specs.Prelude.{◌≡◌};
ghost use Rattle.psy_kernel.specs.Progress.{stage_of};

use psy_kernel::{Kernel, Stage};

/// What is done at a time, where a cycle is due.
#[derive(Clone, Copy, Debug, PartialEq, Eq)]
pub enum Drive {
    /// All cycles before the next date.
    Tick,
    /// The cycles up to the first change on any processor.
    Slice,
    /// One cycle, in the round in force.
    Cycle,
    /// One unit of one processor.
    Unit,
}

/// All of them, the coarsest first.
pub const DRIVES: [Drive; 4] = [Drive::Tick, Drive::Slice, Drive::Cycle, Drive::Unit];

impl Drive {
    /// What it goes by.
    pub fn name(self) -> &'static str {
        match self {
            Drive::Tick => "ticks",
            Drive::Slice => "slices",
            Drive::Cycle => "cycles",
            Drive::Unit => "units",
        }
    }

    /// Does a step of the cycles that are due, and no date.
    pub fn step(self, kernel: &mut Kernel)
        requires { stage_of kernel.old ≡ Stage.CycleDue kernel.old.cycles }
        ensures { kernel.new ≡ record kernel.old { cycles = kernel.new.cycles; units = kernel.new.units; last = kernel.new.last } }
    {
        match self {
            Drive::Tick => kernel.tick(),
            Drive::Slice => kernel.slice(),
            Drive::Cycle => kernel.cycle(),
            Drive::Unit => kernel.unit(),
        }
    }
}
