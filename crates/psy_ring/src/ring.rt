//! The last values that a variable published.
ghost use Rattle.std.specs.Prelude.{◌≡◌, ◌<◌, ◌≤◌, ◌∷◌, ℤ, List, Some, IfOk, length, replicate, take, slice_get};
ghost use Rattle.psy_base.specs.declared.limits.TheConstants.{RING};

use circular_buffer::HeapCircularBuffer;
use psy_base::Memory;
use std::alloc::Global;
use std::marker::Model;

/// The last values that a variable published. Contracts see them as a list, newest first, whose length never
/// changes: the ring's size.
#[derive(Drop)]
pub struct Ring {
    values: HeapCircularBuffer<i32>,
}

impl Model for Ring {
    ghost use Rattle.std.specs.Prelude.{◌≡◌, List, ℤ, length};

    ghost Value = { List ℤ };

    ghost view = { λ r. r.values.items };

    ghost invariant = { λ r. length r.values.items ≡ r.values.capacity };
}

impl Ring {
    /// A ring of so many places, 1 to 65,536, each with the first value. The only error is want of memory; no other
    /// call takes any.
    pub fn new(alloc: Global, size: u32, init: i32) -> Result<Ring, Memory>
        requires { (1 ≤ size) × (size ≤ RING) }
        ensures { IfOk result (λ ring. ring ≡ replicate size init) }
    {
        let mut values = HeapCircularBuffer::with_capacity(alloc, size as usize)?;
        for _ in 0..size {
            values.push_front(init);
        }
        Ok(Ring { values })
    }

    /// The value goes to the front, and the oldest goes out.
    pub fn publish(&mut self, value: i32)
        ensures values { self.new ≡ take (length self.old) (value ∷ self.old) }
        ensures size { length self.new ≡ length self.old }
    {
        self.values.push_front(value);
    }

    /// The value that was published `age` dates before the last one, 0 being the last.
    pub fn look(&self, age: u32) -> i32
        requires { age < length self.now }
        ensures { slice_get self.now age ≡ Some result }
    {
        self.values.get(age as usize).copied().unwrap_or(0)
    }
}
