//! By place of the code, which points or variables stand on ways from there: 64 of them in a row of cells.

ghost use Rattle.std.specs.Prelude.{◌≡◌, ◌<◌, ◌≤◌, length, IfOk};
ghost use Rattle.psy_base.specs.declared.limits.TheConstants.{POINTS};
ghost use Rattle.psy_flow.specs.Bits.{AreEndings, AreOwn, AreRows, IsOwn, IsRow, end_cell};

use crate::bits::has_bit;
use crate::gather::gather;
use crate::kinds::Sought;
use crate::parts::{Part, part_of};
use psy_base::{Items, Memory};
use psy_code::Instr;
use psy_lists::push;
use std::alloc::Global;

// 1 for the end of a way.
fn end_cell(part: Part) -> u64
    ensures { result ≡ end_cell part }
{
    match part {
        Part::End(_) => 1,
        _ => 0,
    }
}

/// By place of the code, a cell whose first bit says whether a way from there ends. The only error is want of memory.
pub fn endings(alloc: Global, instrs: &[Instr]) -> Result<Items<u64>, Memory>
    ensures { IfOk result (AreEndings instrs.now) }
{
    let mut row = Items::new(alloc);
    'places: for instr in instrs {
        row.push(end_cell(part_of(instr)))?;
    }
    gather(instrs, &mut row);
    Ok(row)
}

// The bits of one place, where a way from there ends.
fn own_cell(instrs: &[Instr], endings: &[u64], sought: Sought, first: u32, place: usize) -> u64
    requires place { place < length instrs.now }
    requires endings { AreEndings instrs.now endings.now }
    ensures { IsOwn instrs.now sought first place result }
{
    if !has_bit(endings[place], 0) {
        return 0;
    }
    sought.bits(part_of(&instrs[place]), first)
}

// By place of the code, which of 64 points or variables it has itself, where a way from there ends.
fn own_row(
    alloc: Global,
    instrs: &[Instr],
    endings: &[u64],
    sought: Sought,
    first: u32,
) -> Result<Items<u64>, Memory>
    requires endings { AreEndings instrs.now endings.now }
    ensures { IfOk result (AreOwn instrs.now sought first) }
{
    let mut row = Items::new(alloc);
    'places: for place in 0..instrs.len() {
        row.push(own_cell(instrs, endings, sought, first, place))?;
    }
    Ok(row)
}

// The same for all places that ways pass.
fn found_row(
    alloc: Global,
    instrs: &[Instr],
    endings: &[u64],
    sought: Sought,
    first: u32,
) -> Result<Items<u64>, Memory>
    requires endings { AreEndings instrs.now endings.now }
    ensures { IfOk result (IsRow instrs.now sought first) }
{
    let mut row = own_row(alloc, instrs, endings, sought, first)?;
    gather(instrs, &mut row);
    Ok(row)
}

/// The points or variables below a number that stand on ways from each place of the code, 64 of them in each row. The only error is want of memory.
pub fn found_rows(
    alloc: Global,
    instrs: &[Instr],
    endings: &[u64],
    sought: Sought,
    count: usize,
) -> Result<Items<Items<u64>>, Memory>
    requires endings { AreEndings instrs.now endings.now }
    requires few { count ≤ POINTS }
    ensures { IfOk result (AreRows instrs.now sought count) }
{
    let mut rows = Items::new(alloc);
    'rows: for number in 0..count.div_ceil(64) {
        let row = found_row(alloc, instrs, endings, sought, number as u32 * 64)?;
        push(&mut rows, row)?;
    }
    Ok(rows)
}
