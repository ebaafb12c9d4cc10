//! The numbers whose bits are set at a place.

ghost use Rattle.std.specs.Prelude.{◌≡◌, ◌+◌, ◌*◌, ◌<◌, ◌≤◌, length, IfOk, OnOk};
ghost use Rattle.psy_base.specs.declared.limits.TheConstants.{POINTS};
ghost use Rattle.psy_flow.specs.Bits.{HasNumber};
ghost use Rattle.psy_flow.specs.Listed.{AreBelow, AreNumbers};

use crate::bits::has_bit;
use crate::settling::cell;
use psy_base::{Items, Memory};
use std::alloc::Global;

// Adds the numbers of one row.
fn add_numbers(
    numbers: &mut Items<u32>,
    rows: &[Items<u64>],
    place: usize,
    row: usize,
) -> Result<(), Memory>
    requires row { row < length rows.now }
    requires few { length rows.now ≤ POINTS }
    requires below { AreBelow (HasNumber rows.now place) (row * 64) numbers.old }
    ensures { OnOk result (AreBelow (HasNumber rows.now place) (row * 64 + 64) numbers.new) }
{
    let bits = cell(rows[row].as_slice(), Some(place));
    if bits == 0 {
        return Ok(());
    }
    'bits: for bit in 0..64u32 {
        if has_bit(bits, bit) {
            numbers.push(row as u32 * 64 + bit)?;
        }
    }
    Ok(())
}

/// The numbers whose bits the rows have set at a place, in rising order. The only error is want of memory.
pub fn numbers_at(alloc: Global, rows: &[Items<u64>], place: usize) -> Result<Items<u32>, Memory>
    requires few { length rows.now ≤ POINTS }
    ensures { IfOk result (AreNumbers (HasNumber rows.now place)) }
{
    let mut numbers = Items::new(alloc);
    'rows: for row in 0..rows.len() {
        add_numbers(&mut numbers, rows, place, row)?;
    }
    Ok(numbers)
}
