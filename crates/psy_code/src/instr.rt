//! The instructions of the machine.
ghost use Rattle.std.specs.Prelude.{◌≡◌, ◌≢◌, ◌≤◌, ◌⊎◌, MatchOption};
ghost use Rattle.psy_arith.specs.declared.operators.Op2.TheVariants.{AndAnd, OrOr};
ghost use Rattle.psy_code.specs.Rows.{binary_from, byte_of, byte_of_cast, byte_of_unary, number_of_operator};

use psy_arith::{Op1, Op2, Width};
use std::marker::Model;

/// An operator that takes both its operands from the stack. `&&` and `||` are none of these: their
/// right side may not be evaluated, so they are a test with a jump. Contracts see it as the operator.
#[derive(Clone, Copy, Debug, PartialEq, Eq)]
pub struct Binary {
    op: Op2,
}

impl Model for Binary {
    ghost use Rattle.std.specs.Prelude.{◌≢◌};
    ghost use Rattle.psy_arith.specs.declared.operators.Op2.{Op2};
    ghost use Rattle.psy_arith.specs.declared.operators.Op2.TheVariants.{AndAnd, OrOr};

    ghost Value = { Op2 };

    ghost view = { λ b. b.op };

    ghost inverse = { λ op. record { op = op } };

    ghost invariant = { λ b. (b.op ≢ AndAnd) × (b.op ≢ OrOr) };
}

impl Binary {
    /// The operator as that of an instruction; `None` exactly for `&&` and `||`.
    pub fn new(op: Op2) -> Option<Binary>
        ensures { MatchOption result ((op ≡ AndAnd) ⊎ (op ≡ OrOr)) (λ b. (b ≡ op) × ((op ≢ AndAnd) × (op ≢ OrOr))) }
    {
        match op {
            Op2::AndAnd | Op2::OrOr => None,
            _ => Some(Binary { op }),
        }
    }

    /// The operator of the language, neither `&&` nor `||`.
    pub fn op(self) -> Op2
        ensures same { result ≡ self }
        ensures eager { (result ≢ AndAnd) × (result ≢ OrOr) }
    {
        self.op
    }

    /// The number of the operator among those of its width.
    fn number(self) -> u8
        ensures same { result ≡ number_of_operator self }
        ensures few { result ≤ 15 }
    {
        match self.op {
            Op2::Mul => 0,
            Op2::Div => 1,
            Op2::Rem => 2,
            Op2::Add => 3,
            Op2::Sub => 4,
            Op2::Shl => 5,
            Op2::Shr => 6,
            Op2::Lt => 7,
            Op2::Le => 8,
            Op2::Gt => 9,
            Op2::Ge => 10,
            Op2::Eq => 11,
            Op2::Ne => 12,
            Op2::And => 13,
            Op2::Xor => 14,
            Op2::Or => 15,
            Op2::AndAnd | Op2::OrOr => unreachable!(),
        }
    }
}

/// The byte of the first operator on two operands of a width.
fn binary_from(width: Width) -> u8
    ensures same { result ≡ binary_from width }
    ensures most { result ≤ 96 }
{
    match width {
        Width::W8 => 0x40,
        Width::W16 => 0x50,
        Width::W32 => 0x20,
        Width::W64 => 0x60,
    }
}

/// The byte of an operator on one operand.
fn byte_of_unary(operator: Op1, width: Width) -> u8
    ensures { result ≡ byte_of_unary operator width }
{
    match (operator, width) {
        (Op1::Not, _) => 0x32,
        (Op1::Neg, Width::W8) => 0x70,
        (Op1::Flip, Width::W8) => 0x71,
        (Op1::Neg, Width::W16) => 0x72,
        (Op1::Flip, Width::W16) => 0x73,
        (Op1::Neg, Width::W32) => 0x30,
        (Op1::Flip, Width::W32) => 0x31,
        (Op1::Neg, Width::W64) => 0x74,
        (Op1::Flip, Width::W64) => 0x75,
    }
}

/// The byte of a cast.
fn byte_of_cast(width: Width) -> u8
    ensures { result ≡ byte_of_cast width }
{
    match width {
        Width::W8 => 0x33,
        Width::W16 => 0x34,
        Width::W32 | Width::W64 => 0x35,
    }
}

/// An instruction of an agent's machine, which takes one cycle.
#[derive(Clone, Copy, Debug, PartialEq, Eq)]
pub enum Instr {
    /// Pushes a number.
    Push(i32),
    /// Pushes a cell of the frame.
    Load(u32),
    /// Pops a value into a cell of the frame.
    Store(u32),
    /// Pops an index and pushes that cell of an array.
    LoadCell { base: u32, cells: u32 },
    /// Pops a value and an index below it, and puts the value into that cell of an array.
    StoreCell { base: u32, cells: u32 },
    /// Pushes the working copy of a variable.
    LoadCopy(u32),
    /// Pops a value into the working copy of a variable.
    StoreCopy(u32),
    /// Pushes what a variable published so many of its dates ago.
    Past { variable: u32, back: u32 },
    /// Pushes how many messages of a stream aren't yet taken.
    Ready(u32),
    /// Takes the first message of a stream and pushes its value.
    Take(u32),
    /// Pops a value and sends it to a stream.
    Send { stream: u32, after: u32, clock: u32 },
    /// Goes on at a place.
    Jump(u32),
    /// Pops a value, and goes on at a place where it is 0.
    JumpZero(u32),
    /// Pops a value; where it is 0, pushes 0 and goes on at a place.
    AndTest(u32),
    /// Pops a value; where it isn't 0, pushes 1 and goes on at a place.
    OrTest(u32),
    /// Puts 1 in the place of a value that isn't 0.
    Truth,
    /// Begins to count the turns of a loop.
    Zero(u32),
    /// Counts a turn of a loop where the value on top isn't 0, and traps where the bound is reached.
    Guard { counter: u32, bound: u32 },
    /// Calls a function, whose arguments it pops.
    Call(u32),
    /// Ends a call, whose value is on top.
    Return,
    /// Ends the action; the agent goes on at a point.
    Advance(u32),
    /// Pops two operands and pushes the operator's value at a width.
    Binary(Binary, Width),
    /// Pops an operand and pushes the operator's value at a width.
    Unary(Op1, Width),
    /// Pops a value and pushes what is left of it at a width, as a signed number.
    Cast(Width),
}

impl Instr {
    /// The byte that stands for the kind of the instruction.
    pub fn byte(&self) -> u8
        ensures { result ≡ byte_of self.now }
    {
        macro_rules! bytes {
            ($($form:pat => $byte:expr;)*) => {
                match self {
                    $($form => $byte,)*
                }
            };
        }
        bytes! {
            Instr::Push(..) => 0x01;
            Instr::Load(..) => 0x02;
            Instr::Store(..) => 0x03;
            Instr::LoadCell { .. } => 0x04;
            Instr::StoreCell { .. } => 0x05;
            Instr::LoadCopy(..) => 0x06;
            Instr::StoreCopy(..) => 0x07;
            Instr::Past { .. } => 0x08;
            Instr::Ready(..) => 0x09;
            Instr::Take(..) => 0x0A;
            Instr::Send { .. } => 0x0B;
            Instr::Jump(..) => 0x0C;
            Instr::JumpZero(..) => 0x0D;
            Instr::AndTest(..) => 0x0E;
            Instr::OrTest(..) => 0x0F;
            Instr::Truth => 0x10;
            Instr::Zero(..) => 0x11;
            Instr::Guard { .. } => 0x12;
            Instr::Call(..) => 0x13;
            Instr::Return => 0x14;
            Instr::Advance(..) => 0x15;
            Instr::Binary(operator, width) => binary_from(*width) + operator.number();
            Instr::Unary(operator, width) => byte_of_unary(*operator, *width);
            Instr::Cast(width) => byte_of_cast(*width);
        }
    }
}
