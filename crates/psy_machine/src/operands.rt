//! The operands of a machine.
ghost use Rattle.std.specs.Prelude.{◌≡◌, ◌+◌, ◌<◌, ◌≤◌, [], ◌∷◌, length, take, drop, reverse, IfOk};

use std::alloc::{AllocError, Global};
use std::marker::Model;

/// The operands of a machine, the last one on top, in room that was reserved.
#[derive(Debug, Drop)]
pub struct Operands {
    values: Vec<i64>,
}

impl Model for Operands {
    ghost use Rattle.std.specs.Prelude.{reverse, vec_capacity};
    ghost use Rattle.psy_machine.specs.Parts.{OperandStack};

    ghost Value = { OperandStack };

    ghost view = { λ o. record { values = reverse o.values.items; room = vec_capacity o.values } };
}

impl Operands {
    pub fn new(alloc: Global, room: u32) -> Result<Operands, AllocError>
        ensures values { IfOk result (λ o. o.values ≡ []) }
        ensures room { IfOk result (λ o. room ≤ o.room) }
    {
        Ok(Operands {
            values: Vec::with_capacity(alloc, room as usize)?,
        })
    }

    #[inline(always)]
    pub fn top(&self) -> i64
        requires { 0 < length self.now.values }
        ensures { self.now.values ≡ result ∷ drop 1 self.now.values }
    {
        self.values[self.values.len() - 1]
    }

    /// The operand below the top.
    #[inline(always)]
    pub fn below_top(&self) -> i64
        requires { 1 < length self.now.values }
        ensures { drop 1 self.now.values ≡ result ∷ drop 2 self.now.values }
    {
        self.values[self.values.len() - 2]
    }

    #[inline(always)]
    pub fn set_top(&mut self, value: i64)
        requires { 0 < length self.old.values }
        ensures { self.new ≡ record self.old { values = value ∷ drop 1 self.old.values } }
    {
        let top = self.values.len() - 1;
        self.values[top] = value;
    }

    #[inline(always)]
    pub fn push(&mut self, value: i64)
        requires { length self.old.values < self.old.room }
        ensures { self.new ≡ record self.old { values = value ∷ self.old.values } }
    {
        self.values.push_reserved(value);
    }

    #[inline(always)]
    pub fn pop(&mut self) -> i64
        requires { 0 < length self.old.values }
        ensures value { self.old.values ≡ result ∷ drop 1 self.old.values }
        ensures rest { self.new ≡ record self.old { values = drop 1 self.old.values } }
    {
        self.values.take_last()
    }

    /// The last operands, in the order in which they were pushed.
    pub fn last(&self, count: usize) -> &[i64]
        requires { count ≤ length self.now.values }
        ensures { result.now ≡ reverse (take count self.now.values) }
    {
        let from = self.values.len() - count;
        &self.values[from..]
    }

    /// Lets the last operands go.
    pub fn forget(&mut self, count: usize)
        requires { count ≤ length self.old.values }
        ensures { self.new ≡ record self.old { values = drop count self.old.values } }
    {
        let left = self.values.len() - count;
        self.values.truncate(left);
    }

    pub fn clear(&mut self)
        ensures { self.new ≡ record self.old { values = [] } }
    {
        self.values.clear();
    }
}
