//! A date of the kernel.
ghost use Rattle.std.specs.Prelude.{◌≡◌, ◌≢◌, ◌*◌, length};
ghost use Rattle.psy_kernel.specs.Progress.{after_date, stage_of, told};

use super::Kernel;
use crate::stage::Stage;

impl Kernel {
    /// Does the date that is due, once all lines of the date before it were given. It takes no memory.
    pub fn date(&mut self)
        requires due { stage_of self.old ≡ Stage.DateDue self.old.dates }
        requires given { self.old.given ≡ length (told self.old) }
        ensures state { self.new ≡ after_date self.old }

        // The run is over after its last date, and else the cycles from this date on are due.
        ensures last { self.old.dates ≡ self.old.plan.until → stage_of self.new ≡ Stage.Over }
        ensures earlier { self.old.dates ≢ self.old.plan.until → stage_of self.new ≡ Stage.CycleDue (self.old.dates * self.old.plan.unit.quantum) }
    {
        self.engine.date();
        self.last = None;
    }
}
