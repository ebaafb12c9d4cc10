//! The text of an instruction.
ghost use Rattle.std.specs.Prelude.{◌≡◌, ◌∷◌, ◌++◌, [], OnOk, decimal};
ghost use Rattle.psy_page.specs.Templates.{fill};
ghost use Rattle.psy_listing.specs.Instructions.{instr_text, unary_text, width_text};

use crate::names::{binary_word, clock_word, function_word, unary_word};
use psy_arith::{Op1, Width};
use psy_code::Instr;
use psy_feed::{stream_name, variable_name};
use psy_page::{Piece, fill};
use psy_tree::Unit;
use std::alloc::AllocError;

/// Adds an instruction: its name and what it names.
pub fn add_instr(out: &mut Vec<u8>, unit: &Unit, instr: Instr) -> Result<(), AllocError>
    ensures { OnOk result (out.new.items ≡ out.old.items ++ instr_text unit.now instr) }
{
    match instr {
        Instr::Push(number) => fill(out, b"push $", &[Piece::Value(number)]),
        Instr::Load(cell) => fill(out, b"load $", &[Piece::Number(cell)]),
        Instr::Store(cell) => fill(out, b"store $", &[Piece::Number(cell)]),
        Instr::LoadCell { base, cells } => add_two(out, b"load-cell $ $", base, cells),
        Instr::StoreCell { base, cells } => add_two(out, b"store-cell $ $", base, cells),
        Instr::LoadCopy(variable) => add_named(out, b"load-copy $", variable_name(unit, variable)),
        Instr::StoreCopy(variable) => add_named(
            out,
            b"store-copy $",
            variable_name(unit, variable),
        ),
        Instr::Past { variable, back } => {
            let name = Piece::Raw(variable_name(unit, variable));
            fill(out, b"past $ $", &[name, Piece::Number(back)])
        }
        Instr::Ready(stream) => add_named(out, b"ready $", stream_name(unit, stream)),
        Instr::Take(stream) => add_named(out, b"take $", stream_name(unit, stream)),
        Instr::Send {
            stream,
            after,
            clock,
        } => {
            let name = Piece::Raw(stream_name(unit, stream));
            let clock = Piece::Raw(clock_word(unit, clock));
            fill(
                out,
                b"send $ after $ on $",
                &[name, Piece::Number(after), clock],
            )
        }
        Instr::Jump(to) => fill(out, b"jump $", &[Piece::Number(to)]),
        Instr::JumpZero(to) => fill(out, b"jump-zero $", &[Piece::Number(to)]),
        Instr::AndTest(to) => fill(out, b"and-test $", &[Piece::Number(to)]),
        Instr::OrTest(to) => fill(out, b"or-test $", &[Piece::Number(to)]),
        Instr::Truth => out.extend_from_slice(b"truth"),
        Instr::Zero(counter) => fill(out, b"zero $", &[Piece::Number(counter)]),
        Instr::Guard { counter, bound } => add_two(out, b"guard $ $", counter, bound),
        Instr::Call(function) => add_named(out, b"call $", function_word(unit, function)),
        Instr::Return => out.extend_from_slice(b"return"),
        Instr::Advance(point) => fill(out, b"advance $", &[Piece::Number(point)]),
        Instr::Binary(operator, width) => add_at_width(out, binary_word(operator.op()), width),
        Instr::Unary(operator, width) => add_unary(out, operator, width),
        Instr::Cast(width) => fill(out, b"cast $", &[Piece::Number(width.bits())]),
    }
}

// An instruction of this form with two numbers.
fn add_two(out: &mut Vec<u8>, form: &[u8], first: u32, second: u32) -> Result<(), AllocError>
    ensures { OnOk result (out.new.items ≡ out.old.items ++ fill form.now (decimal first ∷ decimal second ∷ [])) }
{
    fill(out, form, &[Piece::Number(first), Piece::Number(second)])
}

// An instruction of this form with a name.
fn add_named(out: &mut Vec<u8>, form: &[u8], name: &[u8]) -> Result<(), AllocError>
    ensures { OnOk result (out.new.items ≡ out.old.items ++ fill form.now (name.now ∷ [])) }
{
    fill(out, form, &[Piece::Raw(name)])
}

// An operator with one operand; `not` is one for all widths.
fn add_unary(out: &mut Vec<u8>, operator: Op1, width: Width) -> Result<(), AllocError>
    ensures { OnOk result (out.new.items ≡ out.old.items ++ unary_text operator width) }
{
    match operator {
        Op1::Not => out.extend_from_slice(unary_word(operator)),
        Op1::Neg | Op1::Flip => add_at_width(out, unary_word(operator), width),
    }
}

// The name of an operator, and behind it its width, where that isn't 32.
fn add_at_width(out: &mut Vec<u8>, name: &[u8], width: Width) -> Result<(), AllocError>
    ensures { OnOk result (out.new.items ≡ out.old.items ++ name.now ++ width_text width) }
{
    out.extend_from_slice(name)?;
    match width {
        Width::W32 => Ok(()),
        Width::W8 | Width::W16 | Width::W64 => fill(out, b" $", &[Piece::Number(width.bits())]),
    }
}
