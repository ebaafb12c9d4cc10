//! The bytes written so far: numbers, and lists of them, are added, within the limit of a file.
ghost use Rattle.std.specs.Prelude.{◌≡◌, ◌++◌, ◌<◌, ◌≤◌, [], Err, OnOk, length};
ghost use Rattle.std.specs.List.{flat_map};
ghost use Rattle.psy_base.specs.declared.limits.TheConstants.{FILE_BYTES};
ghost use Rattle.psy_snap.specs.declared.fault.SpellFault.TheVariants.{Large};
ghost use Rattle.psy_snap.specs.Bytes.{cell_bytes, long_bytes, number_bytes, value_bytes};

use crate::fault::SpellFault;
use psy_base::limits::FILE_BYTES;
use std::alloc::Global;
use std::marker::Model;

/// Bytes, at most as many as a file may have. Contracts see the list of them.
#[derive(Drop)]
pub struct Page {
    bytes: Vec<u8>,
}

impl Model for Page {
    ghost use Rattle.std.specs.Prelude.{◌≤◌, List, ℕ, length};
    ghost use Rattle.psy_base.specs.declared.limits.TheConstants.{FILE_BYTES};

    ghost Value = { List ℕ };

    ghost view = { λ page. page.bytes.items };

    ghost invariant = { λ page. length page.bytes.items ≤ FILE_BYTES };
}

impl Page {
    /// No bytes.
    pub fn new(alloc: Global) -> Page
        ensures { result ≡ [] }
    {
        Page {
            bytes: Vec::new(alloc),
        }
    }

    /// Adds bytes, unless the limit would be passed.
    pub fn put(&mut self, bytes: &[u8]) -> Result<(), SpellFault>
        ensures written { OnOk result (self.new ≡ self.old ++ bytes.now) }
        ensures large { result ≡ Err Large → FILE_BYTES < length (self.old ++ bytes.now) }
    {
        if bytes.len() > FILE_BYTES - self.bytes.len() {
            return Err(SpellFault::Large);
        }
        self.bytes.extend_from_slice(bytes)?;
        Ok(())
    }

    /// All of them.
    pub fn into_bytes(self) -> Vec<u8>
        ensures bytes { result.items ≡ self }
        ensures few { length result.items ≤ FILE_BYTES }
    {
        self.bytes
    }
}

/// Adds a number.
#[tactic(auto, unfolding(crate::specs::Bytes::number_bytes))]
pub fn put_number(out: &mut Page, number: u32) -> Result<(), SpellFault>
    ensures written { OnOk result (out.new ≡ out.old ++ number_bytes number) }
    ensures large { result ≡ Err Large → FILE_BYTES < length (out.old ++ number_bytes number) }
{
    out.put(&number.to_le_bytes())?;
    Ok(())
}

/// Adds a long number.
#[tactic(auto, unfolding(crate::specs::Bytes::long_bytes))]
pub fn put_long(out: &mut Page, number: u64) -> Result<(), SpellFault>
    ensures written { OnOk result (out.new ≡ out.old ++ long_bytes number) }
    ensures large { result ≡ Err Large → FILE_BYTES < length (out.old ++ long_bytes number) }
{
    out.put(&number.to_le_bytes())?;
    Ok(())
}

/// Adds a number with its sign.
pub fn put_value(out: &mut Page, value: &i32) -> Result<(), SpellFault>
    ensures written { OnOk result (out.new ≡ out.old ++ value_bytes value.now) }
    ensures large { result ≡ Err Large → FILE_BYTES < length (out.old ++ value_bytes value.now) }
{
    put_number(out, (*value).cast_unsigned())?;
    Ok(())
}

/// Adds a long number with its sign.
pub fn put_cell(out: &mut Page, cell: &i64) -> Result<(), SpellFault>
    ensures written { OnOk result (out.new ≡ out.old ++ cell_bytes cell.now) }
    ensures large { result ≡ Err Large → FILE_BYTES < length (out.old ++ cell_bytes cell.now) }
{
    put_long(out, (*cell).cast_unsigned())?;
    Ok(())
}

/// Adds values.
pub fn put_values(out: &mut Page, values: &[i32]) -> Result<(), SpellFault>
    ensures written { OnOk result (out.new ≡ out.old ++ flat_map value_bytes values.now) }
    ensures large { result ≡ Err Large → FILE_BYTES < length (out.old ++ flat_map value_bytes values.now) }
{
    'values: for value in values {
        if let Err(fault) = put_value(out, value) {
            return Err(fault);
        }
    }
    Ok(())
}

/// Adds cells.
pub fn put_cells(out: &mut Page, cells: &[i64]) -> Result<(), SpellFault>
    ensures written { OnOk result (out.new ≡ out.old ++ flat_map cell_bytes cells.now) }
    ensures large { result ≡ Err Large → FILE_BYTES < length (out.old ++ flat_map cell_bytes cells.now) }
{
    'cells: for cell in cells {
        if let Err(fault) = put_cell(out, cell) {
            return Err(fault);
        }
    }
    Ok(())
}
