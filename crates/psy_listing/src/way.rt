//! The straight way from a place of code.
ghost use Rattle.std.specs.Prelude.{◌≡◌, ◌+◌, ◌^◌, ◌<◌, IfOk, length};
ghost use Rattle.psy_listing.specs.Straight.{only_next, straight_way};

use psy_base::{Items, Memory};
use psy_code::Instr;
use std::alloc::Global;

/// The place where an action goes on behind an instruction at a place, where there is but one.
fn next_place(instr: Instr, place: u32) -> Option<u32>
    requires { place + 1 < 2 ^ 32 }
    ensures { result ≡ only_next instr place }
{
    match instr {
        Instr::Jump(to) => Some(to),
        Instr::JumpZero(_)
        | Instr::AndTest(_)
        | Instr::OrTest(_)
        | Instr::Call(_)
        | Instr::Return
        | Instr::Advance(_) => None,
        _ => Some(place + 1),
    }
}

/// The places of the straight way from a place: each the only one where the way goes on behind the one before it.
pub fn straight(alloc: Global, instrs: &[Instr], from: u32) -> Result<Items<u32>, Memory>
    requires { length instrs.now < 2 ^ 32 }
    ensures { IfOk result (λ places. places ≡ straight_way instrs.now from) }
{
    let mut places = Items::new(alloc);
    let mut place = from;
    'steps: for _ in 0..instrs.len() {
        let Some(instr) = instrs.get(place as usize) else {
            return Ok(places);
        };
        places.push(place)?;
        match next_place(*instr, place) {
            None => return Ok(places),
            Some(next) => place = next,
        }
    }
    Ok(places)
}
