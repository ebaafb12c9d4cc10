//! The lines of the date that was done last, and those of the summary.
ghost use Rattle.std.specs.Prelude.{◌≡◌, ◌^◌, ◌<◌, ◌≤◌, Some, IsTrue, IsFalse, length, slice_get};
ghost use Rattle.psy_kernel.specs.Progress.{after_line, lines_told, stage_of, summary_told};

use super::Kernel;
use crate::stage::Stage;
use psy_log::Line;

impl Kernel {
    /// The line of the date done last that comes next, as long as there is one; false, with nothing changed, once there is none. It
    /// takes no memory.
    pub fn next_line(&mut self, line: &mut Line) -> bool
        ensures some { IsTrue result → (slice_get (lines_told self.old) self.old.given ≡ Some line.new) × (self.new ≡ after_line self.old) }
        ensures none { IsFalse result → (self.old.given ≡ length (lines_told self.old)) × (self.new ≡ self.old) × (line.new ≡ line.old) }
    {
        self.engine.next_line(line)
    }

    /// The line of the summary at this place, the first one standing at 0; false exactly where there is none. It takes no memory.
    pub fn summary_line(&self, place: u32, line: &mut Line) -> bool
        requires over { stage_of self.now ≡ Stage.Over }
        ensures some { IsTrue result → slice_get (summary_told self.now) place ≡ Some line.new }
        ensures none { IsFalse result → (length (summary_told self.now) ≤ place) × (line.new ≡ line.old) }
        // The place behind the last line is a number of 32 bits too.
        ensures few { length (summary_told self.now) < 2 ^ 32 }
    {
        self.engine.summary_line(place, line)
    }
}
