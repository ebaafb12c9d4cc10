//! An order of places in which ways go on from later ones to earlier ones, as far as there is one. It makes passes few; nothing that is found
//! rests on it, so nothing is said of it.

use crate::walked::{goes_on_at, no_marks};
use psy_base::{Items, Memory};
use psy_code::Instr;
use std::alloc::Global;

fn is_new(seen: &[bool], place: usize) -> bool {
    match seen.get(place) {
        None => false,
        Some(mark) => !*mark,
    }
}

// Marks a place and lays it on top, unless it is marked or outside the code, and tells whether it did.
fn enter(
    seen: &mut Items<bool>,
    open: &mut Items<usize>,
    place: Option<usize>,
) -> Result<bool, Memory> {
    match place {
        None => Ok(false),
        Some(place) => {
            if place >= seen.len() || !is_new(seen.as_slice(), place) {
                return Ok(false);
            }
            seen.set(place, true);
            open.push(place)?;
            Ok(true)
        }
    }
}

// Enters a place where a way goes on from this one, and tells whether there was one to enter.
fn enter_next(
    instrs: &[Instr],
    seen: &mut Items<bool>,
    open: &mut Items<usize>,
    place: usize,
) -> Result<bool, Memory> {
    if place >= instrs.len() {
        return Ok(false);
    }
    let to = goes_on_at(instrs, place);
    if enter(seen, open, to.jump)? {
        return Ok(true);
    }
    let entered = enter(seen, open, to.next)?;
    Ok(entered)
}

// Goes on from the place on top, or takes it away where there is none to enter, and tells whether there was a place.
fn go_on(
    instrs: &[Instr],
    seen: &mut Items<bool>,
    open: &mut Items<usize>,
    order: &mut Items<usize>,
) -> Result<bool, Memory> {
    match open.pop() {
        None => Ok(false),
        Some(place) => {
            open.push(place)?;
            if !enter_next(instrs, seen, open, place)? {
                open.pop();
                order.push(place)?;
            }
            Ok(true)
        }
    }
}

// Lists the places that ways from this one pass, and that aren't marked.
fn finish(
    instrs: &[Instr],
    root: usize,
    seen: &mut Items<bool>,
    open: &mut Items<usize>,
    order: &mut Items<usize>,
) -> Result<(), Memory> {
    enter(seen, open, Some(root))?;
    'turns: for _ in 0..instrs.len().saturating_add(instrs.len()) {
        if !go_on(instrs, seen, open, order)? {
            return Ok(());
        }
    }
    Ok(())
}

/// The places that ways from these pass, each behind those where ways go on from it, as far as there is such an order. The only error is want of
/// memory.
pub fn finishing(alloc: Global, instrs: &[Instr], roots: &[usize]) -> Result<Items<usize>, Memory> {
    let mut seen = no_marks(alloc, instrs.len())?;
    let mut open = Items::new(alloc);
    let mut order = Items::new(alloc);
    'roots: for root in roots {
        finish(instrs, *root, &mut seen, &mut open, &mut order)?;
    }
    Ok(order)
}

/// So many places, from the first on. The only error is want of memory.
pub fn first_places(alloc: Global, count: usize) -> Result<Items<usize>, Memory> {
    let mut places = Items::new(alloc);
    for place in 0..count {
        places.push(place)?;
    }
    Ok(places)
}
