//! The fields: each is read at the front of the bytes, or it is bad there.
ghost use Rattle.std.specs.Prelude.{◌≡◌, ◌≤◌, ◌-◌, ◌∷◌, [], IfOk};
ghost use Rattle.psy_code.specs.Rows.{rows};
ghost use Rattle.psy_image.specs.Fields.{Number, Signed, Name, Opcode, These, End};
ghost use Rattle.psy_image.specs.Reading.{Gives, field_at, text_at, word_at};

use crate::fault::ReadError;
use crate::names::{is_among, is_name};
use crate::numbers::number;
use psy_arith::Table;
use psy_base::Text;
use std::alloc::Global;

/// Four bytes as a number.
fn word(bytes: &[u8]) -> Result<(u32, &[u8]), ReadError>
    ensures { Gives (λ x. (x.0, x.1.now)) result (word_at bytes.now) }
{
    let Some(word) = number(bytes, 0, 4) else {
        return Err(ReadError::Bad(bytes.len()));
    };
    let (_, rest) = bytes.split_at(4);
    Ok((word as u32, rest))
}

/// A number between both, these included.
#[tactic(auto, unfolding(crate::specs::Reading::number_at))]
pub fn within(least: u32, most: u32, bytes: &[u8]) -> Result<(u32, &[u8]), ReadError>
    ensures reads { Gives (λ x. (x.0, x.1.now)) result (field_at (Number least most) bytes.now) }
    ensures range { IfOk result (λ x. (least ≤ x.0) × (x.0 ≤ most)) }
{
    let (number, rest) = word(bytes)?;
    if number < least || number > most {
        return Err(ReadError::Bad(bytes.len()));
    }
    Ok((number, rest))
}

/// Any number of 32 bits.
pub fn any(bytes: &[u8]) -> Result<(u32, &[u8]), ReadError>
    ensures { Gives (λ x. (x.0, x.1.now)) result (field_at (Number 0 4294967295) bytes.now) }
{
    within(0, u32::MAX, bytes)
}

/// The number of one of so many things, from 0 on; bad where there are none.
pub fn below(count: u32, bytes: &[u8]) -> Result<(u32, &[u8]), ReadError>
    ensures { Gives (λ x. (x.0, x.1.now)) result (field_at (Number (1 - count) (count - 1)) bytes.now) }
{
    within(1u32.saturating_sub(count), count.saturating_sub(1), bytes)
}

/// A number with its sign.
pub fn signed(bytes: &[u8]) -> Result<(i32, &[u8]), ReadError>
    ensures { Gives (λ x. (x.0, x.1.now)) result (field_at Signed bytes.now) }
{
    let (word, rest) = word(bytes)?;
    Ok((word.cast_signed(), rest))
}

/// So many bytes, of a field at which `left` bytes were left.
fn text(left: usize, len: u32, bytes: &[u8]) -> Result<(&[u8], &[u8]), ReadError>
    ensures { Gives (λ x. (x.0.now, x.1.now)) result (text_at left len bytes.now) }
{
    let len = len as usize;
    if bytes.len() < len {
        return Err(ReadError::Bad(left));
    }
    Ok(bytes.split_at(len))
}

/// A name that isn't among the earlier ones.
#[tactic(auto, unfolding(crate::specs::Reading::name_at))]
pub fn name<'a>(
    alloc: Global,
    earlier: &[Text],
    bytes: &'a [u8],
) -> Result<(Text, &'a [u8]), ReadError>
    ensures { Gives (λ x. (x.0, x.1.now)) result (field_at (Name earlier.now) bytes.now) }
{
    let (len, rest) = word(bytes)?;
    let (name, rest) = text(bytes.len(), len, rest)?;
    if !is_name(name) || is_among(name, earlier) {
        return Err(ReadError::Bad(bytes.len()));
    }
    Ok((Text::from_bytes(alloc, name)?, rest))
}

/// The byte of an instruction, by the table of instructions.
pub fn opcode<'a>(table: &Table<97>, bytes: &'a [u8]) -> Result<(u8, &'a [u8]), ReadError>
    requires { table.now.rows ≡ rows }
    ensures { Gives (λ x. (x.0, x.1.now)) result (field_at Opcode bytes.now) }
{
    match bytes {
        [] => Err(ReadError::Bad(0)),
        [byte, rest @ ..] => match table.find(*byte) {
            Some(_) => Ok((*byte, rest)),
            None => Err(ReadError::Bad(bytes.len())),
        },
    }
}

/// The five bytes with which an image begins.
pub fn magic(bytes: &[u8]) -> Result<&[u8], ReadError>
    ensures { Gives (λ rest. (tt, rest.now)) result (field_at (These (80 ∷ 83 ∷ 89 ∷ 67 ∷ 1 ∷ [])) bytes.now) }
{
    if !bytes.starts_with(b"PSYC\x01") {
        return Err(ReadError::Bad(bytes.len()));
    }
    let (_, rest) = bytes.split_at(5);
    Ok(rest)
}

/// No more bytes.
pub fn end(bytes: &[u8]) -> Result<(), ReadError>
    ensures { Gives (λ _. (tt, [])) result (field_at End bytes.now) }
{
    match bytes {
        [] => Ok(()),
        [_, ..] => Err(ReadError::Bad(bytes.len())),
    }
}
