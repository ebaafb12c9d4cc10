//! The looks of an action: each reads the value published for the start of the action, from a place not yet overwritten.
ghost use Rattle.std.specs.Prelude.{◌≡◌, ◌==◌, ◌&&◌, ◌-◌, ◌<◌, ◌≤◌, ◌^◌, length, nat_lt, if◌then◌else◌, option_copied, slice_get};
ghost use Rattle.std.specs.List.{list_any};
ghost use Rattle.std.specs.Ordering.{int_eq};
ghost use Rattle.psy_audit.specs.Judging.{HasRings, untied};
ghost use Rattle.psy_audit.specs.Looks.{age_in, finds, is_look_with, is_value_of};
ghost use Rattle.psy_history.specs.Rings.{slot_of};
ghost use Rattle.psy_audit.specs.Traces.{publishing_in, ring_in};
ghost use Rattle.psy_clock.specs.Dates.{count};
ghost use Rattle.psy_tree.specs.Parts.{variable_at};

use crate::cycles::have_cycle;
use crate::publications::ring_of;
use crate::said::{Act, Look, Publication, Segment};
use crate::timing::{count_to, publishing};
use psy_base::limits;
use psy_dates::Plan;

/// It is a look of one of some actions, with the stretches of the action of its number and the publications of its variable.
pub fn is_look(
    plan: &Plan,
    acts: &[Act],
    its: &[Segment],
    published: &[Publication],
    look: &Look,
) -> bool
    requires rings { HasRings plan.now }
    requires variable { look.now.variable < length plan.now.unit.variables }
    ensures { result ≡ list_any (is_look_with (untied plan.now) its.now published.now look.now) acts.now }
{
    acts.iter()
        .any(|act| is_look_of(plan, its, published, look, act))
}

// It is a look of an action.
fn is_look_of(
    plan: &Plan,
    its: &[Segment],
    published: &[Publication],
    look: &Look,
    act: &Act,
) -> bool
    requires rings { HasRings plan.now }
    requires variable { look.now.variable < length plan.now.unit.variables }
    ensures { result ≡ is_look_with (untied plan.now) its.now published.now look.now act.now }
{
    act.number == look.number
        && (have_cycle(look.cycle, its) && is_look_at(plan, published, look, act.start))
}

// It looks no further back than the depth, and reads the value of its place, so long before a date.
fn is_look_at(plan: &Plan, published: &[Publication], look: &Look, start: u64) -> bool
    requires rings { HasRings plan.now }
    requires variable { look.now.variable < length plan.now.unit.variables }
    ensures { result ≡ (nat_lt look.now.back (variable_at plan.now.unit look.now.variable).depth
        && (look.now.slot
        == slot_of (ring_in (untied plan.now) look.now.variable) (count (publishing_in (untied plan.now) look.now.variable) start) look.now.back
        && (finds (untied plan.now) published.now (count (publishing_in (untied plan.now) look.now.variable) start) look.now
        && nat_lt (age_in (untied plan.now) start look.now) (ring_in (untied plan.now) look.now.variable)))) }
{
    let decl = &plan.unit.variables.as_slice()[look.variable as usize];
    look.back < u64::from(decl.depth) && is_placed(plan, published, look, start)
}

// It reads the value of its place.
fn is_placed(plan: &Plan, published: &[Publication], look: &Look, start: u64) -> bool
    requires rings { HasRings plan.now }
    requires variable { look.now.variable < length plan.now.unit.variables }
    ensures { result ≡ (look.now.slot
        == slot_of (ring_in (untied plan.now) look.now.variable) (count (publishing_in (untied plan.now) look.now.variable) start) look.now.back
        && (finds (untied plan.now) published.now (count (publishing_in (untied plan.now) look.now.variable) start) look.now
        && nat_lt (age_in (untied plan.now) start look.now) (ring_in (untied plan.now) look.now.variable))) }
{
    let size = ring_of(plan, look.variable);
    let dates = count_to(publishing(plan, look.variable), start);
    u128::from(look.slot) == slot_of(size, dates, look.back)
        && is_fresh(plan, published, look, start)
}

// It is that value, and its place isn't overwritten.
fn is_fresh(plan: &Plan, published: &[Publication], look: &Look, start: u64) -> bool
    requires rings { HasRings plan.now }
    requires variable { look.now.variable < length plan.now.unit.variables }
    ensures { result ≡ (finds (untied plan.now) published.now (count (publishing_in (untied plan.now) look.now.variable) start) look.now
        && nat_lt (age_in (untied plan.now) start look.now) (ring_in (untied plan.now) look.now.variable)) }
{
    let decl = &plan.unit.variables.as_slice()[look.variable as usize];
    let dates = count_to(publishing(plan, look.variable), start);
    finds(published, dates, decl.init, look) && is_young(plan, look, start)
}

// Less than a ring of values came behind its value.
fn is_young(plan: &Plan, look: &Look, start: u64) -> bool
    requires rings { HasRings plan.now }
    requires variable { look.now.variable < length plan.now.unit.variables }
    ensures { result ≡ nat_lt (age_in (untied plan.now) start look.now) (ring_in (untied plan.now) look.now.variable) }
{
    let size = ring_of(plan, look.variable);
    let clock = publishing(plan, look.variable);
    let dates = count_to(clock, start);
    let now = count_to(clock, look.cycle / u64::from(plan.unit.quantum));
    u128::from(look.back) + now.saturating_sub(dates) < u128::from(size)
}

// The place in a ring of the value of so many dates back, of those up to now.
fn slot_of(size: u32, dates: u128, back: u64) -> u128
    requires size { 0 < size }
    requires dates { dates ≤ 2 ^ 65 }
    ensures { result ≡ slot_of size dates back }
{
    (dates + u128::from(size - 1) * (u128::from(back) + 1)) % u128::from(size)
}

// The value of a look is that of the publication of so many dates back, or the first value.
fn finds(published: &[Publication], dates: u128, init: i32, look: &Look) -> bool
    ensures { result ≡ (if nat_lt look.now.back dates then is_value_of look.now.value (slice_get published.now (dates - 1 - look.now.back))
        else int_eq look.now.value init) }
{
    let back = u128::from(look.back);
    if back < dates {
        is_value_at(published, dates - 1 - back, look.value)
    } else {
        look.value == i64::from(init)
    }
}

// The publication of a number has this value.
fn is_value_at(published: &[Publication], number: u128, value: i64) -> bool
    ensures { result ≡ is_value_of value (slice_get published.now number) }
{
    match usize::try_from(number) {
        Ok(place) => has_value(published.get(place), value),
        Err(_) => false,
    }
}

fn has_value(publication: Option<&Publication>, value: i64) -> bool
    ensures { result ≡ is_value_of value (option_copied publication.entry) }
{
    match publication {
        Some(its) => value == its.value,
        None => false,
    }
}
