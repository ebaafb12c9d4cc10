//! The numbers of a state: each is read at the front of the bytes, or it is at fault there.
ghost use Rattle.std.specs.Prelude.{◌≡◌, ◌<◌, ◌≤◌, IfOk, false, true};
ghost use Rattle.psy_snap.specs.Cuts.{any_number, cell_of, flag_after, long_below, one_of, up_to};
ghost use Rattle.psy_snap.specs.declared.fault.ReadError.TheVariants.{Bad};
ghost use Rattle.psy_snap.specs.Forms.{fits_type};
ghost use Rattle.psy_snap.specs.Reading.{Gives, field_at, kept_ask, word_at};

use crate::fault::ReadError;
use crate::numbers::{eight, four};
use psy_arith::Width;

/// A field that is missing, cut or out of its range where so many bytes are left.
fn bad(left: usize) -> ReadError
    ensures { result ≡ Bad 1 left }
{
    ReadError::Bad { number: 1, left }
}

/// Four bytes as a number.
fn word(bytes: &[u8]) -> Result<(u32, &[u8]), ReadError>
    ensures { Gives (λ x. (x.0, x.1.now)) result (word_at false bytes.now) }
{
    if bytes.len() < 4 {
        return Err(bad(bytes.len()));
    }
    let (_, rest) = bytes.split_at(4);
    Ok((four(bytes), rest))
}

/// Eight bytes as a number.
fn long(bytes: &[u8]) -> Result<(u64, &[u8]), ReadError>
    ensures { Gives (λ x. (x.0, x.1.now)) result (word_at true bytes.now) }
{
    if bytes.len() < 8 {
        return Err(bad(bytes.len()));
    }
    let (_, rest) = bytes.split_at(8);
    Ok((eight(bytes), rest))
}

/// Any number.
#[tactic(auto, unfolding(crate::specs::Reading::field_at))]
pub fn any(bytes: &[u8]) -> Result<(u32, &[u8]), ReadError>
    ensures { Gives (λ x. (x.0, x.1.now)) result (field_at any_number bytes.now) }
{
    word(bytes)
}

/// A number up to this one.
#[tactic(auto, unfolding(crate::specs::Reading::field_at))]
pub fn up_to(most: u32, bytes: &[u8]) -> Result<(u32, &[u8]), ReadError>
    ensures reads { Gives (λ x. (x.0, x.1.now)) result (field_at (up_to most) bytes.now) }
    ensures range { IfOk result (λ x. x.0 ≤ most) }
{
    let (number, rest) = word(bytes)?;
    if number > most {
        return Err(bad(bytes.len()));
    }
    Ok((number, rest))
}

/// The number of one of so many.
#[tactic(auto, unfolding(crate::specs::Reading::field_at))]
pub fn one_of(count: u32, bytes: &[u8]) -> Result<(u32, &[u8]), ReadError>
    ensures reads { Gives (λ x. (x.0, x.1.now)) result (field_at (one_of count) bytes.now) }
    ensures range { IfOk result (λ x. x.0 < count) }
{
    let (number, rest) = word(bytes)?;
    if number >= count {
        return Err(bad(bytes.len()));
    }
    Ok((number, rest))
}

/// A long number below a limit.
#[tactic(auto, unfolding(crate::specs::Reading::field_at))]
pub fn long_below(limit: u64, bytes: &[u8]) -> Result<(u64, &[u8]), ReadError>
    ensures reads { Gives (λ x. (x.0, x.1.now)) result (field_at (long_below limit) bytes.now) }
    ensures range { IfOk result (λ x. x.0 < limit) }
{
    let (number, rest) = long(bytes)?;
    if number >= limit {
        return Err(bad(bytes.len()));
    }
    Ok((number, rest))
}

/// Whether a number follows: exactly where a count isn't 0.
#[tactic(auto, unfolding(crate::specs::Reading::field_at))]
pub fn flag_after(count: u64, bytes: &[u8]) -> Result<(u32, &[u8]), ReadError>
    ensures { Gives (λ x. (x.0, x.1.now)) result (field_at (flag_after count) bytes.now) }
{
    let (flag, rest) = word(bytes)?;
    if flag != u32::from(count != 0) {
        return Err(bad(bytes.len()));
    }
    Ok((flag, rest))
}

/// Whether a number is one of the type, where one is given.
fn fits_type(width: Option<Width>, number: i64) -> bool
    ensures { result ≡ fits_type width number }
{
    match width {
        None => true,
        Some(Width::W8) => (-0x80..0x80).contains(&number),
        Some(Width::W16) => (-0x8000..0x8000).contains(&number),
        Some(Width::W32) => (-0x8000_0000..0x8000_0000).contains(&number),
        Some(Width::W64) => true,
    }
}

/// A cell of the type.
#[tactic(auto, unfolding(crate::specs::Reading::field_at))]
pub fn cell_of(width: Option<Width>, bytes: &[u8]) -> Result<(u64, &[u8]), ReadError>
    ensures { Gives (λ x. (x.0, x.1.now)) result (field_at (cell_of width) bytes.now) }
{
    let (number, rest) = long(bytes)?;
    if !fits_type(width, number.cast_signed()) {
        return Err(bad(bytes.len()));
    }
    Ok((number, rest))
}

/// The value of a ring that stands behind so many others: the first value, where no more were published.
#[tactic(auto, unfolding(crate::specs::Reading::field_at))]
pub fn kept(published: u64, init: i32, back: u64, bytes: &[u8]) -> Result<(u32, &[u8]), ReadError>
    ensures { Gives (λ x. (x.0, x.1.now)) result (field_at (kept_ask published init back) bytes.now) }
{
    let (number, rest) = word(bytes)?;
    if back >= published && number.cast_signed() != init {
        return Err(bad(bytes.len()));
    }
    Ok((number, rest))
}
