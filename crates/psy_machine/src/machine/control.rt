//! The instructions that go elsewhere: jumps, loops, calls and ends.
ghost use Rattle.std.specs.Prelude.{◌≡◌, ◌+◌, ◌<◌, ◌^◌};
ghost use Rattle.psy_code.specs.Execution.{jump, guard, zero_counter, call};
ghost use Rattle.psy_machine.specs.Acting.{CanDo, Did, with_place, jump_at_zero, leave_zero, leave_one, leave_call, advance_to};
ghost use Rattle.psy_machine.specs.declared.machine.Step.TheVariants as step;

use super::{Machine, Step};
use psy_arith::Trap;
use psy_code::{AgentCode, FunctionCode};

// Where the machine goes on: jumps, tests, bounded loops, calls and the end of an action.
impl Machine {
    /// On to the next instruction.
    #[inline(always)]
    pub(super) fn go_on(&mut self) -> Step
        requires { self.old.machine.place + 1 < 2 ^ 64 }
        ensures answer { result ≡ step.Went }
        ensures machine { self.new ≡ with_place (self.old.machine.place + 1) self.old }
    {
        self.place += 1;
        Step::Went
    }

    /// On at another place.
    #[inline(always)]
    fn go_to(&mut self, to: u32) -> Step
        ensures answer { result ≡ step.Went }
        ensures machine { self.new ≡ with_place to self.old }
    {
        self.place = to as usize;
        Step::Went
    }

    #[inline(always)]
    pub(super) fn jump(&mut self, to: u32) -> Step
        requires { CanDo self.old (jump to self.old.machine.operands self.old.machine) }
        ensures { Did (jump to self.old.machine.operands self.old.machine) self.old self.new result }
    {
        self.go_to(to)
    }

    #[inline(always)]
    pub(super) fn jump_zero(&mut self, to: u32) -> Step
        requires { CanDo self.old (jump_at_zero to self.old.machine) }
        ensures { Did (jump_at_zero to self.old.machine) self.old self.new result }
    {
        if self.operands.pop() == 0 {
            self.go_to(to)
        } else {
            self.go_on()
        }
    }

    #[inline(always)]
    pub(super) fn and_test(&mut self, to: u32) -> Step
        requires { CanDo self.old (leave_zero to self.old.machine) }
        ensures { Did (leave_zero to self.old.machine) self.old self.new result }
    {
        if self.operands.top() == 0 {
            return self.go_to(to);
        }
        self.operands.pop();
        self.go_on()
    }

    #[inline(always)]
    pub(super) fn or_test(&mut self, to: u32) -> Step
        requires { CanDo self.old (leave_one to self.old.machine) }
        ensures { Did (leave_one to self.old.machine) self.old self.new result }
    {
        if self.operands.top() == 0 {
            self.operands.pop();
            return self.go_on();
        }
        self.operands.set_top(1);
        self.go_to(to)
    }

    #[inline(always)]
    pub(super) fn zero(&mut self, counter: u32) -> Step
        requires { CanDo self.old (zero_counter counter self.old.machine) }
        ensures { Did (zero_counter counter self.old.machine) self.old self.new result }
    {
        self.frames.set_counter(counter as usize, 0);
        self.go_on()
    }

    #[inline(always)]
    pub(super) fn guard(&mut self, counter: u32, bound: u32) -> Step
        requires { CanDo self.old (guard counter bound self.old.machine) }
        ensures { Did (guard counter bound self.old.machine) self.old self.new result }
    {
        if self.operands.top() == 0 {
            return self.go_on();
        }
        let turns = self.frames.counter(counter as usize);
        if turns == bound {
            return Step::Trapped(Trap::Loop);
        }
        self.frames
            .set_counter(counter as usize, turns.wrapping_add(1));
        self.go_on()
    }

    pub(super) fn call(&mut self, function: &FunctionCode) -> Step
        requires { CanDo self.old (call function.now self.old.machine) }
        ensures { Did (call function.now self.old.machine) self.old self.new result }
    {
        let params = function.params as usize;
        self.frames.open(
            self.operands.last(params),
            function.locals.as_slice(),
            function.counters,
            self.place + 1,
        );
        self.operands.forget(params);
        self.go_to(function.entry)
    }

    pub(super) fn leave(&mut self) -> Step
        requires { CanDo self.old (leave_call self.old.machine) }
        ensures { Did (leave_call self.old.machine) self.old self.new result }
    {
        self.place = self.frames.close();
        Step::Went
    }

    pub(super) fn advance(&mut self, agent: &AgentCode, point: u32) -> Step
        requires { CanDo self.old (advance_to agent.now point self.old.machine) }
        ensures { Did (advance_to agent.now point self.old.machine) self.old self.new result }
    {
        self.place = agent.points.as_slice()[point as usize] as usize;
        self.operands.clear();
        self.frames.restart();
        Step::Ended(point)
    }
}
