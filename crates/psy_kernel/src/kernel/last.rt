//! What was done last, and what a kernel has.
ghost use Rattle.std.specs.Prelude.{◌≡◌, ◌+◌, ◌≤◌};
ghost use Rattle.psy_dates.specs.Plans.{IsPlan};
ghost use Rattle.psy_dates.specs.Standing.{SharedStands};
ghost use Rattle.psy_history.specs.Compiled.{AreInputs};
ghost use Rattle.psy_history.specs.Scripts.{IsScript};
ghost use Rattle.psy_kernel.specs.Progress.{IsSeenIn, at_rest, ran_in, system, turns_so_far};

use super::Kernel;
use crate::seen::Seen;
use psy_dates::{Plan, Shared};
use psy_history::laws::one_of_them;

impl Kernel {
    /// The agent to which the last step gave its unit. None exactly where that step was none of a unit, or nobody waited for the unit. It takes no memory.
    pub fn ran(&self) -> Option<u32>
        ensures { result ≡ ran_in self.now self.now.last }
    {
        match self.last {
            Some(last) => last.ran,
            None => None,
        }
    }

    /// The look that the unit done last made; None exactly where it made none, or the last step was no unit. It takes no memory.
    pub fn seen(&self) -> Option<Seen>
        ensures { IsSeenIn self.now self.now.last result }
    {
        match self.last {
            Some(last) => last.seen,
            None => None,
        }
    }

    /// The plan that is run: it fits, inputs and script are such as it may be run with, and no date behind its last one was done. It takes no memory.
    pub fn plan(&self) -> &Plan
        ensures plan { result.now ≡ self.now.plan }
        ensures fits { IsPlan self.now.plan }
        ensures inputs { AreInputs self.now.plan.unit self.now.inputs }
        ensures script { IsScript self.now.plan.unit self.now.script }
        ensures within { self.now.dates ≤ self.now.plan.until + 1 }
    {
        self.engine.plan()
    }

    /// What the agents share, as it stands after the dates and the cycles done. It takes no memory.
    pub fn shared(&self) -> &Shared
        ensures inputs { result.now.inputs.lists ≡ self.now.inputs }
        ensures stands { SharedStands (system self.now) self.now.plan.sizes (turns_so_far self.now) self.now.dates result.now }
    {
        one_of_them();
        self.engine.shared()
    }

    // The last step was no unit.
    pub(super) fn rest(&mut self)
        ensures { self.new ≡ at_rest self.old }
    {
        self.last = None;
    }
}
