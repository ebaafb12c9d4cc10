//! The instructions that compute.
ghost use Rattle.psy_code.specs.Execution.{binary, unary, cast};
ghost use Rattle.psy_machine.specs.Acting.{CanDo, Did, truth_of_top};

use super::{Machine, Step};
use psy_arith::widths::{narrowed, operate1, operate2};
use psy_arith::{Op1, Op2, Width};

// Operators, which put their value in the place of their operands.
impl Machine {
    #[inline(always)]
    pub(super) fn binary(&mut self, operator: Op2, width: Width) -> Step
        requires { CanDo self.old (binary operator width self.old.machine) }
        ensures { Did (binary operator width self.old.machine) self.old self.new result }
    {
        let (a, b) = (self.operands.below_top(), self.operands.top());
        match operate2(width, operator, a, b) {
            Ok(value) => {
                self.operands.pop();
                self.operands.set_top(value);
                self.go_on()
            }
            Err(trap) => Step::Trapped(trap),
        }
    }

    #[inline(always)]
    pub(super) fn unary(&mut self, operator: Op1, width: Width) -> Step
        requires { CanDo self.old (unary operator width self.old.machine) }
        ensures { Did (unary operator width self.old.machine) self.old self.new result }
    {
        let value = operate1(width, operator, self.operands.top());
        self.operands.set_top(value);
        self.go_on()
    }

    #[inline(always)]
    pub(super) fn truth(&mut self) -> Step
        requires { CanDo self.old (truth_of_top self.old.machine) }
        ensures { Did (truth_of_top self.old.machine) self.old self.new result }
    {
        let holds = self.operands.top() != 0;
        self.operands.set_top(i64::from(holds));
        self.go_on()
    }

    #[inline(always)]
    pub(super) fn cast(&mut self, width: Width) -> Step
        requires { CanDo self.old (cast width self.old.machine) }
        ensures { Did (cast width self.old.machine) self.old self.new result }
    {
        let value = narrowed(width, self.operands.top());
        self.operands.set_top(value);
        self.go_on()
    }
}
