//! A slice: the cycles up to the first change on any processor.
ghost use Rattle.std.specs.Prelude.{◌≡◌, ◌≢◌, ◌⊎◌, ℕ, ◌*◌, ◌+◌, ◌<◌, ◌≤◌, IfSome, IsFalse, IsTrue};
ghost use Rattle.psy_history.specs.Processors.{processors};
ghost use Rattle.psy_kernel.specs.Progress.{counted_cycle, stage_of};
ghost use Rattle.psy_kernel.specs.Slices.{Changes, IsIdleFor, IsOrderedAt, IsSliceEnd};

use super::Kernel;
use super::round::turned_by;
use crate::stage::Stage;
use psy_history::laws::one_of_them;

impl Kernel {
    // A slice of which all but one processor know that nothing changes on them before the next date or order: the one goes up to its first
    // change, and the others after it.
    fn follow(&mut self, leader: u32)
        requires due { stage_of self.old ≡ Stage.CycleDue self.old.cycles }
        requires known { leader < processors self.old.plan.unit }
        requires alone { (processor : ℕ) → processor < processors self.old.plan.unit → (processor ≡ leader → ⊥)
            → IsIdleFor self.old processor }
        ensures state { self.new ≡ record self.old { cycles = self.new.cycles } }
        ensures end { IsSliceEnd self.old self.new.cycles }
        ensures within { self.new.cycles ≤ self.old.dates * self.old.plan.unit.quantum }
        ensures filled { (t : ℕ) → self.new.cycles ≡ t * self.old.plan.unit.quantum → stage_of self.new ≡ Stage.DateDue t }
        ensures inside { ((t : ℕ) → self.new.cycles ≢ t * self.old.plan.unit.quantum) → stage_of self.new ≡ Stage.CycleDue self.new.cycles }
    {
        one_of_them();
        let date = self.engine.next_date();
        self.engine.go_ahead(leader, date);
        let end = self.engine.done_on(leader);
        self.engine.go_all(end);
        self.cycles = end;
        self.turned = turned_by(self.engine.rounds(), self.turned, end);
    }

    // Whether, whatever became of actions, it is asked anew who runs behind the cycles done: a date is due, or another order comes into force.
    fn asks_anew(&self) -> bool
        requires early { self.now.dates ≤ self.now.plan.until }
        requires whole { self.now.units ≡ 0 }
        ensures yes { IsTrue result → (self.now.cycles ≡ self.now.dates * self.now.plan.unit.quantum) ⊎ IsOrderedAt self.now self.now.cycles }
        ensures no { IsFalse result → (self.now.cycles ≡ self.now.dates * self.now.plan.unit.quantum) ⊎ IsOrderedAt self.now self.now.cycles → ⊥ }
    {
        let date = self.engine.next_date();
        self.cycles == date || self.engine.is_ordered(0)
    }

    // Does the cycle that is due, and tells whether anything changes behind it.
    fn change(&mut self) -> bool
        requires { stage_of self.old ≡ Stage.CycleDue self.old.cycles }
        ensures state { self.new ≡ counted_cycle self.old }
        ensures changes { IsTrue result → Changes self.old (self.old.cycles + 1) }
        ensures steady { IsFalse result → Changes self.old (self.old.cycles + 1) → ⊥ }
        ensures within { self.new.cycles ≤ self.old.dates * self.old.plan.unit.quantum }
        ensures filled { (t : ℕ) → self.new.cycles ≡ t * self.old.plan.unit.quantum → stage_of self.new ≡ Stage.DateDue t }
        ensures inside { ((t : ℕ) → self.new.cycles ≢ t * self.old.plan.unit.quantum) → stage_of self.new ≡ Stage.CycleDue self.new.cycles }
    {
        let over = self.round();
        let asks = self.asks_anew();
        over || asks
    }

    // A slice, cycle by cycle.
    fn go_by_cycles(&mut self)
        requires due { stage_of self.old ≡ Stage.CycleDue self.old.cycles }
        ensures state { self.new ≡ record self.old { cycles = self.new.cycles } }
        ensures end { IsSliceEnd self.old self.new.cycles }
        ensures within { self.new.cycles ≤ self.old.dates * self.old.plan.unit.quantum }
        ensures filled { (t : ℕ) → self.new.cycles ≡ t * self.old.plan.unit.quantum → stage_of self.new ≡ Stage.DateDue t }
        ensures inside { ((t : ℕ) → self.new.cycles ≢ t * self.old.plan.unit.quantum) → stage_of self.new ≡ Stage.CycleDue self.new.cycles }
    {
        'cycles: loop {
            if self.change() {
                return;
            }
        }
    }

    /// Does the cycles that are due up to the first change on any processor: the next date is due, an action is finished or stopped, or another
    /// order comes into force. It leaves what these cycles leave one by one. It takes no memory.
    pub fn slice(&mut self)
        requires { stage_of self.old ≡ Stage.CycleDue self.old.cycles }
        ensures state { self.new ≡ record self.old { cycles = self.new.cycles; last = None } }
        ensures end { IsSliceEnd self.old self.new.cycles }
        ensures count { (self.old.cycles < self.new.cycles) × (self.new.cycles ≤ self.old.dates * self.old.plan.unit.quantum) }

        // A date is due where the cycles done fill whole ticks, and else the next cycle.
        ensures filled { (t : ℕ) → self.new.cycles ≡ t * self.old.plan.unit.quantum → stage_of self.new ≡ Stage.DateDue t }
        ensures inside { ((t : ℕ) → self.new.cycles ≢ t * self.old.plan.unit.quantum) → stage_of self.new ≡ Stage.CycleDue self.new.cycles }
    {
        self.rest();
        match self.leader() {
            Some(leader) => self.follow(leader),
            None => self.go_by_cycles(),
        }
    }

    // A processor but for which nobody waits for any, where there is such a one.
    fn leader(&self) -> Option<u32>
        requires { stage_of self.now ≡ Stage.CycleDue self.now.cycles }
        ensures known { IfSome result (λ leader. leader < processors self.now.plan.unit) }
        ensures alone { IfSome result (λ leader. (processor : ℕ) → processor < processors self.now.plan.unit → (processor ≡ leader → ⊥)
            → IsIdleFor self.now processor) }
    {
        one_of_them();
        self.engine.leader()
    }
}
