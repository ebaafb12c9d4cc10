//! What operators are called, and the names of clocks and functions.
ghost use Rattle.std.specs.Prelude.{◌≡◌, [], get_or};
ghost use Rattle.psy_listing.specs.Instructions.{clock_name, function_name, unary_name, binary_name};

use psy_arith::{Op1, Op2};
use psy_tree::Unit;

/// What an operator with two operands is called.
pub fn binary_word(operator: Op2) -> &'static [u8]
    ensures { result.now ≡ binary_name operator }
{
    match operator {
        Op2::Mul => b"mul",
        Op2::Div => b"div",
        Op2::Rem => b"rem",
        Op2::Add => b"add",
        Op2::Sub => b"sub",
        Op2::Shl => b"shl",
        Op2::Shr => b"shr",
        Op2::Lt => b"lt",
        Op2::Le => b"le",
        Op2::Gt => b"gt",
        Op2::Ge => b"ge",
        Op2::Eq => b"eq",
        Op2::Ne => b"ne",
        Op2::And => b"and",
        Op2::Xor => b"xor",
        Op2::Or => b"or",
        Op2::AndAnd => b"and-and",
        Op2::OrOr => b"or-or",
    }
}

/// What an operator with one operand is called.
pub fn unary_word(operator: Op1) -> &'static [u8]
    ensures { result.now ≡ unary_name operator }
{
    match operator {
        Op1::Neg => b"neg",
        Op1::Flip => b"flip",
        Op1::Not => b"not",
    }
}

/// The name of a clock.
pub fn clock_word(unit: &Unit, clock: u32) -> &[u8]
    ensures { result.now ≡ clock_name unit.now clock }
{
    match unit.clock_names.as_slice().get(clock as usize) {
        Some(name) => name.bytes(),
        None => b"",
    }
}

/// The name of a function.
pub fn function_word(unit: &Unit, function: u32) -> &[u8]
    ensures { result.now ≡ function_name unit.now function }
{
    match unit.functions.as_slice().get(function as usize) {
        Some(function) => function.name.bytes(),
        None => b"",
    }
}
