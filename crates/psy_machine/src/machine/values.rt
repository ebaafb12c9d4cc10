//! The instructions that read and write cells, copies, variables and streams.
ghost use Rattle.std.specs.Prelude.{◌≡◌};
ghost use Rattle.std.specs.Int.{w32, int_wrap};
ghost use Rattle.psy_code.specs.Execution.{push, load, load_cell, store_cell, store_copy, index_in};
ghost use Rattle.psy_machine.specs.Acting.{CanDo, Did, store_top, push_copy};

use super::{Machine, Step};
use psy_arith::Trap;
use psy_arith::widths::narrow;

// Instructions that move values between the operands and the cells and copies.
impl Machine {
    #[inline(always)]
    pub(super) fn push(&mut self, number: i64) -> Step
        requires { CanDo self.old (push number self.old.machine) }
        ensures { Did (push number self.old.machine) self.old self.new result }
    {
        self.operands.push(number);
        self.go_on()
    }

    #[inline(always)]
    pub(super) fn load(&mut self, cell: u32) -> Step
        requires { CanDo self.old (load cell self.old.machine.operands self.old.machine) }
        ensures { Did (load cell self.old.machine.operands self.old.machine) self.old self.new result }
    {
        let value = self.frames.cell(cell as usize);
        self.push(value)
    }

    #[inline(always)]
    pub(super) fn store(&mut self, cell: u32) -> Step
        requires { CanDo self.old (store_top cell self.old.machine) }
        ensures { Did (store_top cell self.old.machine) self.old self.new result }
    {
        let value = self.operands.pop();
        self.frames.set_cell(cell as usize, value);
        self.go_on()
    }

    #[inline(always)]
    pub(super) fn load_cell(&mut self, base: u32, cells: u32) -> Step
        requires { CanDo self.old (load_cell base cells self.old.machine) }
        ensures { Did (load_cell base cells self.old.machine) self.old self.new result }
    {
        match index_within(self.operands.top(), cells) {
            Some(index) => {
                let value = self.frames.cell(base as usize + index);
                self.operands.set_top(value);
                self.go_on()
            }
            None => Step::Trapped(Trap::Index),
        }
    }

    #[inline(always)]
    pub(super) fn store_cell(&mut self, base: u32, cells: u32) -> Step
        requires { CanDo self.old (store_cell base cells self.old.machine) }
        ensures { Did (store_cell base cells self.old.machine) self.old self.new result }
    {
        match index_within(self.operands.below_top(), cells) {
            Some(index) => {
                let value = self.operands.pop();
                self.operands.pop();
                self.frames.set_cell(base as usize + index, value);
                self.go_on()
            }
            None => Step::Trapped(Trap::Index),
        }
    }

    #[inline(always)]
    pub(super) fn load_copy(&mut self, variable: u32) -> Step
        requires { CanDo self.old (push_copy variable self.old.machine) }
        ensures { Did (push_copy variable self.old.machine) self.old self.new result }
    {
        let value = self.copies.get(variable);
        self.push(i64::from(value))
    }

    #[inline(always)]
    pub(super) fn store_copy(&mut self, variable: u32) -> Step
        requires { CanDo self.old (store_copy variable self.old.machine) }
        ensures { Did (store_copy variable self.old.machine) self.old self.new result }
    {
        let value = self.operands.pop();
        self.copies.set(variable, low_32(value));
        self.go_on()
    }
}

/// The cell that an index names, counted from the first one of its array; `None` outside the array.
#[inline(always)]
fn index_within(index: i64, cells: u32) -> Option<usize>
    ensures { result ≡ index_in cells index }
{
    if index < 0 {
        return None;
    }
    let index = index.cast_unsigned();
    if index < u64::from(cells) {
        Some(index as usize)
    } else {
        None
    }
}

/// What is left of a value in 32 bits, as a signed number: that is what a copy holds and a message carries.
#[inline(always)]
#[tactic(auto, using(std::proofs::lemmas::Int::wraps))]
pub(super) fn low_32(value: i64) -> i32
    ensures { result ≡ int_wrap w32 value }
{
    narrow::<32>(value) as i32
}
