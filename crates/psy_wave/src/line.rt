//! Parts of lines.
ghost use Rattle.std.specs.Prelude.{◌≡◌, ◌++◌, OnOk};
ghost use Rattle.psy_wave.specs.Codes.{code, valued, vector, word};

use psy_text::write::add_number;
use std::alloc::AllocError;

/// Adds the identifier code of the thing of this kind at this place.
pub fn add_code(out: &mut Vec<u8>, kind: u8, place: usize) -> Result<(), AllocError>
    ensures { OnOk result (out.new.items ≡ out.old.items ++ code kind place) }
{
    out.push(kind)?;
    add_number(out, place as u64)
}

/// Adds that a thing has a value: the value as it is written, and the thing's code.
pub fn add_value(out: &mut Vec<u8>, value: &[u8], kind: u8, place: usize) -> Result<(), AllocError>
    ensures { OnOk result (out.new.items ≡ out.old.items ++ valued value.now kind place) }
{
    out.extend_from_slice(value)?;
    add_code(out, kind, place)?;
    out.push(b'\n')?;
    Ok(())
}

/// Adds that a vector has a value, which is written in binary.
pub fn add_vector(out: &mut Vec<u8>, value: i32, kind: u8, place: usize) -> Result<(), AllocError>
    ensures { OnOk result (out.new.items ≡ out.old.items ++ vector value kind place) }
{
    out.push(b'b')?;
    out.extend_from_slice(&digits_of(value.cast_unsigned()))?;
    add_value(out, b" ", kind, place)
}

// The binary digits of a word, the highest first.
fn digits_of(number: u32) -> [u8; 32]
    ensures { result ≡ word number }
{
    let mut digits = [b'0'; 32];
    let mut left = number;
    for turn in 0..32 {
        digits[31 - turn] = if left % 2 == 0 { b'0' } else { b'1' };
        left /= 2;
    }
    digits
}
