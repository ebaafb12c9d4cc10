//! What is due next.
ghost use Rattle.std.specs.Prelude.{◌≡◌};
ghost use Rattle.psy_kernel.specs.Progress.{stage_of};

use super::Kernel;
use crate::stage::Stage;

impl Kernel {
    /// What is due next.
    pub fn stage(&self) -> Stage
        ensures { result ≡ stage_of self.now }
    {
        let dates = self.engine.dates();
        if dates == u64::from(self.engine.until()) + 1 {
            return Stage::Over;
        }
        if self.cycles == dates * u64::from(self.engine.quantum()) {
            return Stage::DateDue(dates);
        }
        if self.units == 0 {
            return Stage::CycleDue(self.cycles);
        }
        Stage::UnitDue(self.cycles, self.next_processor())
    }
}
