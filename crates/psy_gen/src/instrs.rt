//! Instructions as they are made.

ghost use Rattle.std.specs.Prelude.{◌≡◌, ◌<◌, [], ◌∷◌, ◌++◌, ◌^◌, length, slice_set, IfOk, OnOk};
ghost use Rattle.psy_code.specs.declared.instr.Instr.TheVariants as instr;

use psy_base::{Items, Memory};
use psy_code::Instr;
use std::alloc::Global;
use std::marker::Model;

/// Instructions, each at its place from 0. Contracts see their list.
#[derive(Debug, Drop)]
pub struct Instrs {
    items: Items<Instr>,
}

impl Model for Instrs {
    ghost use Rattle.std.specs.Prelude.{List};
    ghost use Rattle.psy_code.specs.declared.instr.Instr.{Instr as Instruction};

    ghost Value = { List Instruction };

    ghost view = { λ i. i.items };
}

impl Instrs {
    pub fn new(alloc: Global) -> Instrs
        ensures { result ≡ [] }
    {
        Instrs {
            items: Items::new(alloc),
        }
    }

    /// The place of the next instruction.
    pub fn place(&self) -> u32
        requires { length self.now < 2 ^ 32 }
        ensures { result ≡ length self.now }
    {
        self.items.len() as u32
    }

    pub fn push(&mut self, instr: Instr) -> Result<(), Memory>
        ensures { OnOk result (self.new ≡ self.old ++ instr ∷ []) }
    {
        self.items.push(instr)?;
        Ok(())
    }

    /// Keeps a place for a jump, whose target comes later.
    pub fn hold(&mut self) -> Result<u32, Memory>
        requires { length self.old < 2 ^ 32 }
        ensures place { IfOk result (λ place. place ≡ length self.old) }
        ensures held { OnOk result (self.new ≡ self.old ++ instr.Jump 0 ∷ []) }
    {
        let place = self.place();
        self.push(Instr::Jump(0))?;
        Ok(place)
    }

    /// Puts an instruction at a place that was kept.
    pub fn set(&mut self, place: u32, instr: Instr)
        requires { place < length self.old }
        ensures { self.new ≡ slice_set self.old place instr }
    {
        self.items.set(place as usize, instr);
    }

    pub fn into_items(self) -> Items<Instr>
        ensures { result ≡ self }
    {
        let Instrs { items } = self;
        items
    }
}
