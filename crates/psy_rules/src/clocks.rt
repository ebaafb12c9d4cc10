//! Which clocks are sound.

ghost use Rattle.std.specs.Prelude.{◌≡◌, IfSome, Option};
ghost use Rattle.psy_clock.specs.Dates.{IsClock};
ghost use Rattle.psy_tree.specs.Rules.{AreClocks};
ghost use Rattle.psy_tree.specs.Rules as rules;
ghost use Rattle.psy_rules.specs.Clocks.{parent_clock, clock_of, faulty};

use crate::names::Names;
use psy_clock::{Clock, PERIOD, derive};
use psy_tree::{Found, Item, Lit, Name};
use sqlite_items::at;

pub fn shift_of(shift: Option<Lit>) -> u32
    ensures { result ≡ rules.shift_of shift }
{
    match shift {
        None => 0,
        Some(shift) => shift.value,
    }
}

/// What a parent stands for, given the sound clocks of the declarations above: `tick`, or a sound clock
/// above.
pub fn sound_parent(
    globals: &Names,
    known: &[Option<Clock>],
    parent: &Option<Name>,
) -> Option<Clock>
    requires { AreClocks known.now }
    ensures value { result ≡ parent_clock globals.now known.now parent.now }
    ensures lawful { IfSome result IsClock }
{
    match parent {
        None => Some(Clock::base()),
        Some(parent) => sound_found(known, globals.first(&parent.text)),
    }
}

fn sound_found(known: &[Option<Clock>], found: Option<Found>) -> Option<Clock>
    requires { AreClocks known.now }
    ensures value { result ≡ rules.sound_found known.now found }
    ensures lawful { IfSome result IsClock }
{
    match found {
        Some(Found::Item(k)) => flat(at(known, k).copied()),
        _ => None,
    }
}

fn flat(known: Option<Option<Clock>>) -> Option<Clock>
    ensures { result ≡ rules.flat known }
{
    match known {
        None => None,
        Some(known) => known,
    }
}

/// The clock derived from a parent, where it is lawful.
fn lawful(parent: Option<Clock>, by: u32, shift: u32) -> Option<Clock>
    requires { IfSome parent IsClock }
    ensures value { result ≡ rules.lawful parent by shift }
    ensures lawful { IfSome result IsClock }
{
    match parent {
        None => None,
        Some(parent) => derived(parent, by, shift),
    }
}

fn derived(parent: Clock, by: u32, shift: u32) -> Option<Clock>
    requires { IsClock parent }
    ensures value { result ≡ rules.lawful (Option.Some parent) by shift }
    ensures lawful { IfSome result IsClock }
{
    match derive(parent, by, shift) {
        Ok(clock) => Some(clock),
        Err(_) => None,
    }
}

/// The clock of a declaration, where it is one and sound.
pub fn sound(globals: &Names, known: &[Option<Clock>], item: &Item) -> Option<Clock>
    requires { AreClocks known.now }
    ensures value { result ≡ clock_of globals.now known.now item.now }
    ensures lawful { IfSome result IsClock }
{
    match item {
        Item::Clock {
            by,
            parent,
            shift,
            ..
        } => lawful(
            sound_parent(globals, known, parent),
            by.value,
            shift_of(*shift),
        ),
        _ => None,
    }
}

fn is_too_slow(parent: Option<Clock>, by: u32) -> bool
    ensures { result ≡ rules.too_slow parent by }
{
    match parent {
        None => false,
        Some(parent) => u64::from(PERIOD) < u64::from(by) * u64::from(parent.period),
    }
}

/// Whether a clock's shift or its period is at fault.
pub fn is_bad_clock(globals: &Names, known: &[Option<Clock>], item: &Item) -> bool
    requires { AreClocks known.now }
    ensures { result ≡ faulty globals.now known.now item.now }
{
    match item {
        Item::Clock {
            by,
            parent,
            shift,
            ..
        } => {
            by.value <= shift_of(*shift)
                || is_too_slow(sound_parent(globals, known, parent), by.value)
        }
        _ => false,
    }
}
