//! The ways on from an instruction, with what is popped and pushed on them.

ghost use Rattle.std.specs.Prelude.{◌≡◌, ◌<◌, ◌^◌, ◌∷◌, length, slice_get};
ghost use Rattle.psy_flow.specs.Heights.{onto, past_call, shifts};
ghost use Rattle.psy_judge.specs.Highest.{shifts_of};

use psy_code::{Code, Instr};

/// A way on from an instruction: where it goes, and how many operands are popped and pushed on it.
#[derive(Clone, Copy, Debug)]
pub struct Step {
    pub to: usize,
    pub pops: u64,
    pub pushes: u64,
}

/// The ways on, of which there are two at most.
#[derive(Clone, Copy, Debug)]
pub struct Steps {
    pub next: Option<Step>,
    pub jump: Option<Step>,
}

fn onto(to: usize, pops: u64, pushes: u64) -> Steps
    ensures { shifts_of result ≡ onto to pops pushes }
{
    Steps {
        next: Some(Step { to, pops, pushes }),
        jump: None,
    }
}

// Past a call, where there is the function.
fn past_call(code: &Code, function: u32, place: usize) -> Steps
    requires place { place < length code.now.instrs }
    requires few { length code.now.instrs < 2 ^ 32 }
    ensures { shifts_of result ≡ past_call place (slice_get code.now.functions function) }
{
    match code.functions.get(function as usize) {
        None => Steps {
            next: None,
            jump: None,
        },
        Some(called) => onto(place + 1, called.params as u64, 1),
    }
}

// To the next place, or to another with so many operands pushed there.
fn either(place: usize, to: u32, pushes: u64) -> Steps
    ensures { shifts_of result ≡ record { to = place; pops = 1; pushes = 0 } ∷ onto to 1 pushes }
{
    Steps {
        next: Some(Step {
            to: place,
            pops: 1,
            pushes: 0,
        }),
        jump: Some(Step {
            to: to as usize,
            pops: 1,
            pushes,
        }),
    }
}

/// The ways on from the instruction at a place of the code.
pub fn steps_at(code: &Code, instr: &Instr, place: usize) -> Steps
    requires place { place < length code.now.instrs }
    requires few { length code.now.instrs < 2 ^ 32 }
    ensures { shifts_of result ≡ shifts code.now place instr.now }
{
    let next = place + 1;
    match instr {
        Instr::Push(_)
        | Instr::Load(_)
        | Instr::LoadCopy(_)
        | Instr::Past { .. }
        | Instr::Ready(_)
        | Instr::Take(_) => onto(next, 0, 1),
        Instr::Store(_) | Instr::StoreCopy(_) | Instr::Send { .. } => onto(next, 1, 0),
        Instr::LoadCell { .. }
        | Instr::Truth
        | Instr::Guard { .. }
        | Instr::Unary(..)
        | Instr::Cast(_) => onto(next, 1, 1),
        Instr::StoreCell { .. } => onto(next, 2, 0),
        Instr::Binary(..) => onto(next, 2, 1),
        Instr::Zero(_) => onto(next, 0, 0),
        Instr::Jump(to) => onto(*to as usize, 0, 0),
        Instr::JumpZero(to) => either(next, *to, 0),
        Instr::AndTest(to) | Instr::OrTest(to) => either(next, *to, 1),
        Instr::Call(function) => past_call(code, *function, place),
        Instr::Return | Instr::Advance(_) => Steps {
            next: None,
            jump: None,
        },
    }
}
