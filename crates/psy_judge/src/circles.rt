//! Places to which a way comes back higher: they have no greatest height.
//!
//! Each place knows from which one its greatest height came. Where these lead round, the way round is gone once: what is found rests on that
//! alone.

ghost use Rattle.std.specs.Prelude.{◌≡◌, ◌<◌, ◌^◌, ℕ, length, true, Some};
ghost use Rattle.psy_flow.specs.Owners.{Owner};
ghost use Rattle.psy_judge.specs.Climbing.{
  ComesHigher,
  IsLifted,
  Leads,
  LeadsTo,
  first_some,
  greatest_of,
  stand_along,
};
ghost use Rattle.psy_judge.specs.Highest.{AreFound, AreSmall, IsClosedAt, IsCourse};

use crate::heights::{Top, top_of, visit};
use crate::steps::{Step, steps_at};
use psy_base::{Items, Memory};
use psy_code::Code;
use std::alloc::Global;

/// A place and a height there.
#[derive(Clone, Copy, Debug)]
pub struct Stand {
    pub place: usize,
    pub height: u64,
}

/// So many numbers that are no places. The only error is want of memory.
pub fn no_places(alloc: Global, count: usize) -> Result<Items<usize>, Memory> {
    let mut places = Items::new(alloc);
    for _ in 0..count {
        places.push(count)?;
    }
    Ok(places)
}

// ---- from where heights came

fn greatest(top: Top) -> Option<u64>
    ensures { result ≡ greatest_of top }
{
    match top {
        Top::One(a) | Top::Two(a, _) => Some(a),
        _ => None,
    }
}

fn greatest_behind(row: &[Top], step: Option<Step>) -> Option<u64> {
    match step {
        None => None,
        Some(step) => match row.get(step.to) {
            None => None,
            Some(top) => greatest(*top),
        },
    }
}

// Notes the place from which another greatest height came.
fn note(
    from: &mut Items<usize>,
    row: &[Top],
    step: Option<Step>,
    before: Option<u64>,
    place: usize,
) {
    if greatest_behind(row, step) == before {
        return;
    }
    match step {
        None => {}
        Some(step) => {
            if step.to < from.len() {
                from.set(step.to, place);
            }
        }
    }
}

/// Takes the top of a place along the ways on from there, and notes the place where it is the greatest.
pub fn visit_noting(
    code: &Code,
    row: &mut Items<Top>,
    from: &mut Items<usize>,
    place: usize,
) -> bool
    requires place { place < length code.now.instrs }
    requires count { length row.old ≡ length code.now.instrs }
    requires few { length code.now.instrs < 2 ^ 32 }
    requires small { AreSmall (length code.now.instrs) row.old }
    ensures count { length row.new ≡ length code.now.instrs }
    ensures small { AreSmall (length code.now.instrs) row.new }
    ensures course { (owner : Owner) → AreFound code.now owner row.old
        → IsCourse code.now owner (λ after. IsClosedAt code.now after place) row.old row.new result }
{
    let on = steps_at(code, &code.instrs.as_slice()[place], place);
    let next = greatest_behind(row.as_slice(), on.next);
    let jump = greatest_behind(row.as_slice(), on.jump);
    let rose = visit(code, row, place);
    note(from, row.as_slice(), on.next, next, place);
    note(from, row.as_slice(), on.jump, jump, place);
    rose
}

// ---- circles

// What is noted of a place, if it is one.
fn noted(list: &[usize], place: usize) -> usize {
    match list.get(place) {
        None => list.len(),
        Some(number) => *number,
    }
}

// Goes back from a place from where its height came, and on, up to a place that was seen: it is on a circle if that was just now.
fn on_circle(
    from: &[usize],
    seen: &mut Items<usize>,
    least: usize,
    stamp: usize,
    place: usize,
) -> Option<usize> {
    let mut at = place;
    'places: for _ in 0..from.len().saturating_add(1) {
        if at >= seen.len() {
            return None;
        }
        let before = noted(seen.as_slice(), at);
        if before > least {
            return if before == stamp { Some(at) } else { None };
        }
        seen.set(at, stamp);
        at = noted(from, at);
    }
    None
}

// Notes of each place on a circle where it goes on.
fn turn_round(from: &[usize], onto: &mut Items<usize>, place: usize) {
    let mut at = place;
    'places: for _ in 0..from.len() {
        let before = noted(from, at);
        if before >= onto.len() {
            return;
        }
        onto.set(before, at);
        at = before;
        if at == place {
            return;
        }
    }
}

// ---- once round

fn stand_along(step: Option<Step>, to: usize, height: u64) -> Option<Stand>
    requires height { height < 2 ^ 62 }
    requires one { (some : Step) → Some some ≡ step → some.pushes < 2 ^ 62 }
    ensures { result ≡ stand_along step to height }
{
    match step {
        None => None,
        Some(step) => {
            if step.to == to && step.pops <= height {
                Some(Stand {
                    place: step.to,
                    height: height - step.pops + step.pushes,
                })
            } else {
                None
            }
        }
    }
}

fn first_some(this: Option<Stand>, that: Option<Stand>) -> Option<Stand>
    ensures { result ≡ first_some this that }
{
    match this {
        None => that,
        Some(stand) => Some(stand),
    }
}

// From a place of the code, by a jump or by the next place.
fn step_at(code: &Code, place: usize, to: usize, height: u64) -> Option<Stand>
    requires place { place < length code.now.instrs }
    requires few { length code.now.instrs < 2 ^ 32 }
    requires height { height < 2 ^ 62 }
    ensures { (from low : ℕ) → Leads code.now from low place height → LeadsTo code.now from low result }
{
    let on = steps_at(code, &code.instrs.as_slice()[place], place);
    let jump = stand_along(on.jump, to, height);
    let next = stand_along(on.next, to, height);
    first_some(jump, next)
}

fn step_from(code: &Code, onto: &[usize], stand: Stand) -> Option<Stand>
    requires few { length code.now.instrs < 2 ^ 32 }
    ensures { (from low : ℕ) → Leads code.now from low stand.place stand.height → LeadsTo code.now from low result }
{
    if stand.place >= code.instrs.len() || stand.height >= 4_294_967_296 {
        return None;
    }
    step_at(code, stand.place, noted(onto, stand.place), stand.height)
}

fn step_on(code: &Code, onto: &[usize], stand: Option<Stand>) -> Option<Stand>
    requires few { length code.now.instrs < 2 ^ 32 }
    ensures { (from low : ℕ) → LeadsTo code.now from low stand → LeadsTo code.now from low result }
{
    match stand {
        None => None,
        Some(stand) => step_from(code, onto, stand),
    }
}

// It is there, or nowhere.
fn is_over(stand: Option<Stand>, place: usize) -> bool {
    match stand {
        None => true,
        Some(stand) => stand.place == place,
    }
}

// From a place and height, once round or up to where it can't go on.
fn once_round(code: &Code, onto: &[usize], place: usize, height: u64) -> Option<Stand>
    requires few { length code.now.instrs < 2 ^ 32 }
    ensures { LeadsTo code.now place height result }
{
    let mut stand = step_from(code, onto, Stand { place, height });
    'places: for _ in 0..onto.len() {
        if is_over(stand, place) {
            return stand;
        }
        stand = step_on(code, onto, stand);
    }
    stand
}

fn is_higher(stand: Option<Stand>, place: usize, height: u64) -> bool
    ensures { result ≡ true → (stands : Stand) × (stand ≡ Some stands) × (stands.place ≡ place) × (height < stands.height) }
{
    match stand {
        None => false,
        Some(stand) => stand.place == place && height < stand.height,
    }
}

fn comes_higher(code: &Code, onto: &[usize], place: usize, height: Option<u64>) -> bool
    requires few { length code.now.instrs < 2 ^ 32 }
    ensures { result ≡ true → ComesHigher code.now place height }
{
    match height {
        None => false,
        Some(height) => is_higher(once_round(code, onto, place, height), place, height),
    }
}

// ---- lifts

// Lifts a place to which a way comes back higher.
fn lift_at(code: &Code, row: &mut Items<Top>, onto: &[usize], place: usize)
    requires few { length code.now.instrs < 2 ^ 32 }
    requires count { length row.old ≡ length code.now.instrs }
    requires small { AreSmall (length code.now.instrs) row.old }
    ensures count { length row.new ≡ length code.now.instrs }
    ensures small { AreSmall (length code.now.instrs) row.new }
    ensures lifted { (owner : Owner) → AreFound code.now owner row.old → IsLifted code.now owner row.old row.new }
{
    if place >= row.len() {
        return;
    }
    let height = greatest(top_of(row.as_slice(), place));
    if comes_higher(code, onto, place, height) {
        row.set(place, Top::Endless);
    }
}

// Lifts a place on the circle to which the notes lead back from this one, if there is a new one.
fn lift_behind(
    code: &Code,
    row: &mut Items<Top>,
    from: &[usize],
    onto: &mut Items<usize>,
    circle: Option<usize>,
)
    requires few { length code.now.instrs < 2 ^ 32 }
    requires count { length row.old ≡ length code.now.instrs }
    requires small { AreSmall (length code.now.instrs) row.old }
    ensures count { length row.new ≡ length code.now.instrs }
    ensures small { AreSmall (length code.now.instrs) row.new }
    ensures lifted { (owner : Owner) → AreFound code.now owner row.old → IsLifted code.now owner row.old row.new }
{
    match circle {
        None => {}
        Some(place) => {
            turn_round(from, onto, place);
            lift_at(code, row, onto.as_slice(), place);
        }
    }
}

/// Lifts a place on each circle to which the notes lead back from these places. All that was seen before bears the stamp at most.
pub fn lift(
    code: &Code,
    places: &[usize],
    row: &mut Items<Top>,
    from: &[usize],
    onto: &mut Items<usize>,
    seen: &mut Items<usize>,
    stamp: usize,
)
    requires few { length code.now.instrs < 2 ^ 32 }
    requires count { length row.old ≡ length code.now.instrs }
    requires small { AreSmall (length code.now.instrs) row.old }
    ensures count { length row.new ≡ length code.now.instrs }
    ensures small { AreSmall (length code.now.instrs) row.new }
    ensures lifted { (owner : Owner) → AreFound code.now owner row.old → IsLifted code.now owner row.old row.new }
{
    let mut next = stamp;
    'places: for place in places {
        next = next.wrapping_add(1);
        let circle = on_circle(from, seen, stamp, next, *place);
        lift_behind(code, row, from, onto, circle);
    }
}
