//! Clocks and their dates.
ghost use Rattle.psy_clock.specs.Dates.{IsClock};

use psy_clock::{Clock, ClockFault, derive};
use std::process::Abort;

// Each tenth date from 4 on.
fn tenth(rt: &impl Abort) -> Clock
    ensures { IsClock result }
{
    derive(Clock::base(), 10, 4).expect(rt, "each tenth date")
}

// Each thirtieth date from 24 on.
fn thirtieth(rt: &impl Abort) -> Clock
    ensures { IsClock result }
{
    derive(tenth(rt), 3, 2).expect(rt, "each third date of those")
}

#[test]
fn a_derived_clock_has_its_period_and_first_date(rt: HostRuntime) {
    let (parent, child) = (tenth(&rt), thirtieth(&rt));
    assert_eq!(rt; (parent.period, parent.first), (10, 4));
    assert_eq!(rt; (child.period, child.first), (30, 24));
}

#[test]
fn a_shift_is_below_its_factor(rt: HostRuntime) {
    assert_eq!(rt; derive(Clock::base(), 2, 2), Err(ClockFault::BadShift));
    assert_eq!(rt;
        derive(tenth(&rt), 1_001, 1_001),
        Err(ClockFault::BadShift),
        "the shift is judged first"
    );
}

#[test]
fn a_period_has_a_limit(rt: HostRuntime) {
    let parent = tenth(&rt);
    assert_eq!(rt; derive(parent, 1_001, 1_000), Err(ClockFault::TooSlow));
    assert!(rt;
        derive(parent, 1_000, 999).is_ok(),
        "10,000 ticks are lawful"
    );
}

#[test]
fn dates_come_behind_a_date(rt: HostRuntime) {
    let clock = thirtieth(&rt);
    for (t, k, after, from) in [
        (0, 1, 24, 54),
        (23, 1, 24, 54),
        (24, 1, 54, 54),
        (24, 2, 84, 84),
        (25, 1, 54, 84),
    ] {
        assert_eq!(rt; clock.after(t, k), after, "after {t}, {k}");
        assert_eq!(rt; clock.from_date(t, k), from, "from {t}, {k}");
    }
    assert_eq!(rt; clock.from_date(24, 0), 24);
}

#[test]
fn each_number_is_a_date_of_the_base_clock(rt: HostRuntime) {
    assert_eq!(rt; Clock::base().from_date(7, 0), 7);
    assert_eq!(rt; Clock::base().after(7, 3), 10);
}

#[test]
fn dates_are_counted(rt: HostRuntime) {
    let clock = thirtieth(&rt);
    for (t, count) in [(0, 0), (23, 0), (24, 1), (53, 1), (54, 2), (84, 3)] {
        assert_eq!(rt; clock.count_to(t), count, "count to {t}");
    }
}
