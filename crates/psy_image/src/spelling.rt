//! Writing the small parts: numbers, names, values and instructions.
ghost use Rattle.std.specs.Prelude.{◌≡◌, ◌++◌, OnOk};
ghost use Rattle.psy_image.specs.Bytes.{instr_bytes, list_bytes, name_bytes, number_bytes, operand_bytes, owner_number, value_bytes};

use psy_base::Text;
use psy_code::Instr;
use std::alloc::AllocError;

/// Adds a number.
pub fn put_number(out: &mut Vec<u8>, number: u32) -> Result<(), AllocError>
    ensures { OnOk result (out.new.items ≡ out.old.items ++ number_bytes number) }
{
    out.extend_from_slice(&number.to_le_bytes())
}

/// Adds two numbers.
pub fn put_two(out: &mut Vec<u8>, first: u32, second: u32) -> Result<(), AllocError>
    ensures { OnOk result (out.new.items ≡ out.old.items ++ (number_bytes first ++ number_bytes second)) }
{
    put_number(out, first)?;
    put_number(out, second)?;
    Ok(())
}

/// Adds how many there are, as far as 32 bits go.
#[tactic(auto, using(crate::proofs::Written::low_bytes))]
pub fn put_count(out: &mut Vec<u8>, count: usize) -> Result<(), AllocError>
    ensures { OnOk result (out.new.items ≡ out.old.items ++ number_bytes count) }
{
    put_number(out, (count % 0x1_0000_0000) as u32)
}

/// Adds a number with its sign.
pub fn put_value(out: &mut Vec<u8>, value: i32) -> Result<(), AllocError>
    ensures { OnOk result (out.new.items ≡ out.old.items ++ value_bytes value) }
{
    put_number(out, value.cast_unsigned())
}

/// Adds a list of values.
pub fn put_values(out: &mut Vec<u8>, values: &[i32]) -> Result<(), AllocError>
    ensures { OnOk result (out.new.items ≡ out.old.items ++ list_bytes value_bytes values.now) }
{
    put_count(out, values.len())?;
    'values: for value in values {
        put_value(out, *value)?;
    }
    Ok(())
}

/// Adds a name.
pub fn put_name(out: &mut Vec<u8>, name: &Text) -> Result<(), AllocError>
    ensures { OnOk result (out.new.items ≡ out.old.items ++ name_bytes name.now) }
{
    let bytes = name.bytes();
    put_count(out, bytes.len())?;
    out.extend_from_slice(bytes)?;
    Ok(())
}

/// Adds the number that says an owner: one more, or 0 for none.
#[tactic(auto, using(crate::proofs::Written::low_bytes))]
pub fn put_owner(out: &mut Vec<u8>, owner: Option<u32>) -> Result<(), AllocError>
    ensures { OnOk result (out.new.items ≡ out.old.items ++ number_bytes (owner_number owner)) }
{
    match owner {
        None => put_number(out, 0),
        Some(owner) => put_number(out, owner.wrapping_add(1)),
    }
}

fn put_operands(out: &mut Vec<u8>, instr: &Instr) -> Result<(), AllocError>
    ensures { OnOk result (out.new.items ≡ out.old.items ++ operand_bytes instr.now) }
{
    match *instr {
        Instr::Push(number) => put_value(out, number),
        Instr::Load(cell) => put_number(out, cell),
        Instr::Store(cell) => put_number(out, cell),
        Instr::LoadCell { base, cells } => put_two(out, base, cells),
        Instr::StoreCell { base, cells } => put_two(out, base, cells),
        Instr::LoadCopy(variable) => put_number(out, variable),
        Instr::StoreCopy(variable) => put_number(out, variable),
        Instr::Past { variable, back } => put_two(out, variable, back),
        Instr::Ready(stream) => put_number(out, stream),
        Instr::Take(stream) => put_number(out, stream),
        Instr::Send {
            stream,
            after,
            clock,
        } => {
            put_number(out, stream)?;
            put_two(out, after, clock)
        }
        Instr::Jump(to) => put_number(out, to),
        Instr::JumpZero(to) => put_number(out, to),
        Instr::AndTest(to) => put_number(out, to),
        Instr::OrTest(to) => put_number(out, to),
        Instr::Zero(counter) => put_number(out, counter),
        Instr::Guard { counter, bound } => put_two(out, counter, bound),
        Instr::Call(function) => put_number(out, function),
        Instr::Advance(point) => put_number(out, point),
        Instr::Truth | Instr::Return => Ok(()),
        Instr::Binary(..) | Instr::Unary(..) | Instr::Cast(..) => Ok(()),
    }
}

/// Adds an instruction.
pub fn put_instr(out: &mut Vec<u8>, instr: &Instr) -> Result<(), AllocError>
    ensures { OnOk result (out.new.items ≡ out.old.items ++ instr_bytes instr.now) }
{
    out.push(instr.byte())?;
    put_operands(out, instr)?;
    Ok(())
}
