//! Bits that go back along the ways through code: each place gets those of all places that ways from it pass.
//!
//! A pass visits each place once, from the last to the first, and so takes bits back along all steps to later places at once; a step back to an
//! earlier one takes another pass. Passes go on until none of the cells changes: in code that goes back only at the ends of loops, as often
//! as loops nest and twice more.

ghost use Rattle.std.specs.Prelude.{◌≡◌, ◌<◌, ℕ, true, false, length};
ghost use Rattle.psy_flow.specs.Bits.{AreGathered, AreStill, IsGathered, gathered_at, spare};

use crate::settling::cell;
use crate::walks::goes_on_at;
use psy_base::Items;
use psy_code::Instr;

// The bits of a place and of the places where ways go on from it.
fn gathered(instrs: &[Instr], row: &[u64], place: usize) -> u64
    requires place { place < length instrs.now }
    requires count { length row.now ≡ length instrs.now }
    ensures { result ≡ gathered_at instrs.now row.now place }
{
    let to = goes_on_at(instrs, place);
    row[place] | (cell(row, to.next) | cell(row, to.jump))
}

// Adds to the cell of a place what is behind it, and tells whether that is more.
fn gather_at(instrs: &[Instr], row: &mut Items<u64>, place: usize) -> bool
    requires place { place < length instrs.now }
    requires count { length row.old ≡ length instrs.now }
    ensures gathered { IsGathered instrs.now row.old row.new }
    ensures more { result ≡ true → spare row.new < spare row.old }
    ensures same { result ≡ false → row.new ≡ row.old }
    ensures still { result ≡ false → AreStill instrs.now row.old place }
{
    let all = gathered(instrs, row.as_slice(), place);
    if all == row.as_slice()[place] {
        return false;
    }
    row.set(place, all);
    true
}

// One pass over the places, and whether some cell got more.
fn pass(instrs: &[Instr], row: &mut Items<u64>) -> bool
    requires count { length row.old ≡ length instrs.now }
    ensures gathered { IsGathered instrs.now row.old row.new }
    ensures more { result ≡ true → spare row.new < spare row.old }
    ensures still { result ≡ false → (place : ℕ) → place < length instrs.now → AreStill instrs.now row.new place }
{
    let mut more = false;
    let mut place = instrs.len();
    'places: while place > 0 {
        place -= 1;
        more |= gather_at(instrs, row, place);
    }
    more
}

/// Adds to the cell of each place the bits of all places that ways from it pass.
pub fn gather(instrs: &[Instr], row: &mut Items<u64>)
    requires count { length row.old ≡ length instrs.now }
    ensures { AreGathered instrs.now row.old row.new }
{
    'passes: loop {
        if !pass(instrs, row) {
            return;
        }
    }
}
