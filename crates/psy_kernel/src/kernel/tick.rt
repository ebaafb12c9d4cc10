//! A tick: the cycles up to the next date.
ghost use Rattle.std.specs.Prelude.{◌≡◌, ◌*◌, ◌<◌};
ghost use Rattle.psy_kernel.specs.Progress.{stage_of, up_to_date};

use super::Kernel;
use super::round::turned_by;
use crate::stage::Stage;

impl Kernel {
    /// Does all that is left of the cycles before the next date, each processor by itself: what it does between two dates depends on nothing that
    /// others do. It leaves what these cycles leave one by one. It takes no memory.
    pub fn tick(&mut self)
        requires { stage_of self.old ≡ Stage.CycleDue self.old.cycles }
        ensures state { self.new ≡ up_to_date self.old }
        ensures some { self.old.cycles < self.new.cycles }
        ensures due { stage_of self.new ≡ Stage.DateDue self.old.dates }
    {
        let date = self.engine.next_date();
        self.engine.go_all(date);
        self.cycles = date;
        self.turned = turned_by(self.engine.rounds(), self.turned, date);
        self.last = None;
    }
}
