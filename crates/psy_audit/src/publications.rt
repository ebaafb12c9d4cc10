//! The publications of a variable: one at each of its dates, in the place of its ring that is due.
ghost use Rattle.std.specs.Prelude.{◌≡◌, ◌<◌, ◌^◌, length};
ghost use Rattle.psy_audit.specs.Judging.{HasRings, untied};
ghost use Rattle.psy_audit.specs.Publications.{is_number};
ghost use Rattle.psy_clock.specs.Dates.{count};
ghost use Rattle.std.specs.Prelude.{get_or, nat_le};
ghost use Rattle.psy_tree.specs.Parts.{no_clock, variable_at};

use crate::said::Publication;
use crate::timing::{count_to, publishing};
use psy_dates::Plan;

/// A publication is the one of a number: at that date of its variable, and in the place of that number.
pub fn is_number(plan: &Plan, number: u64, publication: &Publication) -> bool
    requires rings { HasRings plan.now }
    requires variable { publication.now.variable < length plan.now.unit.variables }
    ensures { result ≡ is_number (untied plan.now) number publication.now }
{
    let clock = publishing(plan, publication.variable);
    let date = u128::from(clock.first) + u128::from(number) * u128::from(clock.period);
    u128::from(publication.date) == date
        && publication.slot == number % u64::from(ring_of(plan, publication.variable))
}

/// The places of a variable's ring.
pub fn ring_of(plan: &Plan, variable: u32) -> u32
    ensures { result ≡ get_or plan.now.sizes.rings variable 0 }
{
    match plan.sizes.rings.get(variable as usize) {
        Some(size) => *size,
        None => 0,
    }
}

/// There are so many publications, one for each date of a variable up to the last one.
pub fn are_published(plan: &Plan, variable: u32, number: usize) -> bool
    requires rings { HasRings plan.now }
    requires variable { variable < length plan.now.unit.variables }
    ensures { result ≡ nat_le (count (get_or plan.now.unit.clocks (variable_at plan.now.unit variable).clock no_clock) plan.now.until) number }
{
    count_to(publishing(plan, variable), u64::from(plan.until)) <= number as u128
}
