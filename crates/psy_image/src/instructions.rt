//! The instructions.
ghost use Rattle.std.specs.Prelude.{◌≡◌, ◌≢◌, ◌<◌, Some};
ghost use Rattle.psy_arith.specs.declared.operators.Op2.TheVariants.{AndAnd, OrOr};
ghost use Rattle.psy_code.specs.declared.instr.Instr.TheVariants as kinds;
ghost use Rattle.psy_code.specs.Rows.{rows};
ghost use Rattle.psy_image.specs.Images.{instr, instrs};
ghost use Rattle.psy_image.specs.Instructions.{binary_of, instruction, operands, operator_of, pushed, unary_of, with_none, with_one, with_two};
ghost use Rattle.psy_image.specs.Reading.{Gives, read};

use crate::fault::ReadError;
use crate::fields::{any, opcode, signed};
use psy_arith::{Op1, Op2, Table, Width};
use psy_base::Items;
use psy_code::{Binary, Instr, instructions};
use std::alloc::Global;

/// The operator on two operands with that number among those of its width.
#[tactic(auto, unfolding(crate::specs::Instructions::operator_of))]
fn operator_of(number: u8) -> Op2
    requires { number < 16 }
    ensures same { result ≡ operator_of number }
    ensures eager { (result ≢ AndAnd) × (result ≢ OrOr) }
{
    match number {
        0 => Op2::Mul,
        1 => Op2::Div,
        2 => Op2::Rem,
        3 => Op2::Add,
        4 => Op2::Sub,
        5 => Op2::Shl,
        6 => Op2::Shr,
        7 => Op2::Lt,
        8 => Op2::Le,
        9 => Op2::Gt,
        10 => Op2::Ge,
        11 => Op2::Eq,
        12 => Op2::Ne,
        13 => Op2::And,
        14 => Op2::Xor,
        _ => Op2::Or,
    }
}

/// The instruction of the operator with that number at a width.
fn binary(number: u8, width: Width) -> Option<Instr>
    requires { number < 16 }
    ensures { result ≡ Some (kinds.Binary (operator_of number) width) }
{
    let operator = Binary::new(operator_of(number)).unwrap();
    Some(Instr::Binary(operator, width))
}

/// Operators on two operands: sixteen bytes for each width.
#[tactic(auto, unfolding(crate::specs::Instructions::binary_of))]
fn binary_of(byte: u8) -> Option<Instr>
    ensures { result ≡ binary_of byte }
{
    if byte >= 0x20 && byte < 0x30 {
        return binary(byte - 0x20, Width::W32);
    }
    if byte >= 0x40 && byte < 0x50 {
        return binary(byte - 0x40, Width::W8);
    }
    if byte >= 0x50 && byte < 0x60 {
        return binary(byte - 0x50, Width::W16);
    }
    if byte >= 0x60 && byte < 0x70 {
        return binary(byte - 0x60, Width::W64);
    }
    None
}

/// Operators on one operand, and casts. `!` has one byte for all widths.
#[tactic(auto, unfolding(crate::specs::Instructions::unary_of))]
fn unary_of(byte: u8) -> Option<Instr>
    ensures { result ≡ unary_of byte }
{
    match byte {
        0x30 => Some(Instr::Unary(Op1::Neg, Width::W32)),
        0x31 => Some(Instr::Unary(Op1::Flip, Width::W32)),
        0x32 => Some(Instr::Unary(Op1::Not, Width::W64)),
        0x33 => Some(Instr::Cast(Width::W8)),
        0x34 => Some(Instr::Cast(Width::W16)),
        0x35 => Some(Instr::Cast(Width::W32)),
        0x70 => Some(Instr::Unary(Op1::Neg, Width::W8)),
        0x71 => Some(Instr::Unary(Op1::Flip, Width::W8)),
        0x72 => Some(Instr::Unary(Op1::Neg, Width::W16)),
        0x73 => Some(Instr::Unary(Op1::Flip, Width::W16)),
        0x74 => Some(Instr::Unary(Op1::Neg, Width::W64)),
        0x75 => Some(Instr::Unary(Op1::Flip, Width::W64)),
        _ => None,
    }
}

/// The instruction without operands that a byte stands for.
#[tactic(auto, unfolding(crate::specs::Instructions::with_none))]
fn with_none(byte: u8) -> Option<Instr>
    ensures { result ≡ with_none byte }
{
    match byte {
        0x10 => Some(Instr::Truth),
        0x14 => Some(Instr::Return),
        _ => binary_of(byte).or(unary_of(byte)),
    }
}

/// The instruction with one operand that a byte stands for.
#[tactic(auto, unfolding(crate::specs::Instructions::with_one))]
fn with_one(byte: u8, operand: u32) -> Option<Instr>
    ensures { result ≡ with_one byte operand }
{
    match byte {
        0x02 => Some(Instr::Load(operand)),
        0x03 => Some(Instr::Store(operand)),
        0x06 => Some(Instr::LoadCopy(operand)),
        0x07 => Some(Instr::StoreCopy(operand)),
        0x09 => Some(Instr::Ready(operand)),
        0x0A => Some(Instr::Take(operand)),
        0x0C => Some(Instr::Jump(operand)),
        0x0D => Some(Instr::JumpZero(operand)),
        0x0E => Some(Instr::AndTest(operand)),
        0x0F => Some(Instr::OrTest(operand)),
        0x11 => Some(Instr::Zero(operand)),
        0x13 => Some(Instr::Call(operand)),
        0x15 => Some(Instr::Advance(operand)),
        _ => None,
    }
}

/// The instruction with two operands that a byte stands for.
#[tactic(auto, unfolding(crate::specs::Instructions::with_two))]
fn with_two(byte: u8, first: u32, second: u32) -> Option<Instr>
    ensures { result ≡ with_two byte first second }
{
    match byte {
        0x04 => Some(Instr::LoadCell {
            base: first,
            cells: second,
        }),
        0x05 => Some(Instr::StoreCell {
            base: first,
            cells: second,
        }),
        0x08 => Some(Instr::Past {
            variable: first,
            back: second,
        }),
        0x12 => Some(Instr::Guard {
            counter: first,
            bound: second,
        }),
        _ => None,
    }
}

/// A number to push.
fn pushed(bytes: &[u8]) -> Result<(Instr, &[u8]), ReadError>
    ensures { Gives (λ x. (x.0, x.1.now)) result (read pushed bytes.now) }
{
    let (number, rest) = signed(bytes)?;
    Ok((Instr::Push(number), rest))
}

/// The operands of an instruction that has some, by its byte.
#[tactic(auto, unfolding(crate::specs::Instructions::operands))]
fn operands(byte: u8, bytes: &[u8]) -> Result<(Instr, &[u8]), ReadError>
    ensures { Gives (λ x. (x.0, x.1.now)) result (read (operands byte) bytes.now) }
{
    let (first, rest) = any(bytes)?;
    if let Some(instr) = with_one(byte, first) {
        return Ok((instr, rest));
    }
    let (second, rest) = any(rest)?;
    if let Some(instr) = with_two(byte, first, second) {
        return Ok((instr, rest));
    }
    let (third, rest) = any(rest)?;
    Ok((
        Instr::Send {
            stream: first,
            after: second,
            clock: third,
        },
        rest,
    ))
}

#[tactic(auto, unfolding(crate::specs::Instructions::instruction))]
fn instruction<'a>(table: &Table<97>, bytes: &'a [u8]) -> Result<(Instr, &'a [u8]), ReadError>
    requires { table.now.rows ≡ rows }
    ensures { Gives (λ x. (x.0, x.1.now)) result (read instruction bytes.now) }
{
    let (byte, rest) = opcode(table, bytes)?;
    if let Some(instr) = with_none(byte) {
        return Ok((instr, rest));
    }
    if byte == 0x01 {
        return pushed(rest);
    }
    operands(byte, rest)
}

#[tactic(auto, unfolding(crate::specs::Images::instr), using(crate::proofs::Exact::read_then))]
fn instr<'a>(
    table: &Table<97>,
    instrs: &mut Items<Instr>,
    bytes: &'a [u8],
) -> Result<&'a [u8], ReadError>
    requires { table.now.rows ≡ rows }
    ensures { Gives (λ rest. (instrs.new, rest.now)) result (read (instr instrs.old) bytes.now) }
{
    match instruction(table, bytes) {
        Ok((instr, rest)) => {
            instrs.push(instr)?;
            Ok(rest)
        }
        Err(error) => Err(error),
    }
}

/// The instructions.
#[tactic(auto, unfolding(crate::specs::Images::instrs))]
pub fn instrs(alloc: Global, bytes: &[u8]) -> Result<(Items<Instr>, &[u8]), ReadError>
    ensures { Gives (λ x. (x.0, x.1.now)) result (read instrs bytes.now) }
{
    let table = instructions();
    let (count, mut rest) = any(bytes)?;
    let mut instrs = Items::new(alloc);
    'instrs: for _ in 0..count {
        rest = instr(&table, &mut instrs, rest)?;
    }
    Ok((instrs, rest))
}
