//! The units of a cycle, one for each processor.
ghost use Rattle.std.specs.Prelude.{◌≡◌, ◌≢◌, ◌⊎◌, ℕ, ◌+◌, ◌*◌, ◌≤◌, IsFalse, IsTrue};
ghost use Rattle.psy_kernel.specs.Progress.{after_cycle, after_unit, counted, counted_cycle, next_processor, stage_of};
ghost use Rattle.psy_kernel.specs.Slices.{IsOverBy, IsOverFor};

use super::round::turned_by;
use super::{Kernel, LastUnit};
use crate::stage::Stage;
use psy_history::laws::one_of_them;

impl Kernel {
    // Does the unit that is due, and tells whether an action of its processor is over with it.
    fn step(&mut self) -> bool
        requires { (stage_of self.old ≡ Stage.CycleDue self.old.cycles)
            ⊎ (stage_of self.old ≡ Stage.UnitDue self.old.cycles (next_processor self.old)) }
        ensures state { self.new ≡ counted self.old }
        ensures over { IsTrue result → IsOverFor self.old (next_processor self.old) (self.old.cycles + 1) }
        ensures goes { IsFalse result → IsOverFor self.old (next_processor self.old) (self.old.cycles + 1) → ⊥ }
    {
        let processor = self.next_processor();
        let processors = self.engine.processors();
        let _until = self.engine.until();
        let over = self.engine.give(processor, 1);
        self.units += 1;
        if self.units == processors {
            self.units = 0;
            self.cycles += 1;
            self.turned = turned_by(self.engine.rounds(), self.turned, self.cycles);
        }
        over
    }

    // Does the cycle that is due, in the round in force, and tells whether an action is over with it.
    pub(super) fn round(&mut self) -> bool
        requires { stage_of self.old ≡ Stage.CycleDue self.old.cycles }
        ensures state { self.new ≡ counted_cycle self.old }
        ensures over { IsTrue result → IsOverBy self.old (self.old.cycles + 1) }
        ensures goes { IsFalse result → IsOverBy self.old (self.old.cycles + 1) → ⊥ }
        ensures early { self.old.dates ≤ self.old.plan.until }
        ensures within { self.new.cycles ≤ self.old.dates * self.old.plan.unit.quantum }

        // A date is due where the cycles done fill whole ticks, and else the next cycle.
        ensures filled { (t : ℕ) → self.new.cycles ≡ t * self.old.plan.unit.quantum → stage_of self.new ≡ Stage.DateDue t }
        ensures inside { ((t : ℕ) → self.new.cycles ≢ t * self.old.plan.unit.quantum) → stage_of self.new ≡ Stage.CycleDue self.new.cycles }
    {
        one_of_them();
        let mut over = false;
        'units: for _ in 0..self.engine.processors() {
            over = self.step() || over;
        }
        over
    }

    /// Does the next processor's unit of the cycle that is due or was begun: of its pending actions, the one of the earliest deadline gets it. It
    /// takes no memory.
    pub fn unit(&mut self)
        requires { (stage_of self.old ≡ Stage.CycleDue self.old.cycles)
            ⊎ (stage_of self.old ≡ Stage.UnitDue self.old.cycles (next_processor self.old)) }
        ensures state { self.new ≡ after_unit self.old }
    {
        let processor = self.next_processor();
        let cycle = self.cycles;
        let next = self.engine.coming(processor);
        self.step();
        self.last = Some(LastUnit {
            processor,
            cycle,
            ran: next.ran,
            seen: next.seen,
        });
    }

    /// Does the cycle that is due: a unit of each processor, in the round in force. It takes no memory.
    pub fn cycle(&mut self)
        requires { stage_of self.old ≡ Stage.CycleDue self.old.cycles }
        ensures state { self.new ≡ after_cycle self.old }

        // A date is due where the cycles done fill whole ticks, and else the next cycle.
        ensures filled { (t : ℕ) → self.new.cycles ≡ t * self.old.plan.unit.quantum → stage_of self.new ≡ Stage.DateDue t }
        ensures inside { ((t : ℕ) → self.new.cycles ≢ t * self.old.plan.unit.quantum) → stage_of self.new ≡ Stage.CycleDue self.new.cycles }
    {
        self.rest();
        self.round();
    }
}
