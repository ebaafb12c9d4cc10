//! By clock its next date.

ghost use Rattle.std.specs.Prelude.{◌≡◌, ℕ, ◌+◌, ◌^◌, ◌<◌, ◌≤◌, IfOk, IsFalse, IsTrue, Some, false, get_or, length, slice_get, true};
ghost use Rattle.std.specs.List.{All};
ghost use Rattle.psy_clock.specs.Dates.{IsClock, from_date};
ghost use Rattle.psy_history.specs.Lines.{is_date};
ghost use Rattle.psy_tree.specs.Parts.{no_clock};
ghost use Rattle.psy_dates.specs.Calendars.{AreNext, CalendarStands};

use psy_base::Memory;
use psy_clock::Clock;
use psy_clock::laws::dates;
use std::alloc::Global;
use std::marker::Model;

/// By clock its next date, and the least of these. Contracts see the list of these dates.
#[derive(Drop)]
pub struct Calendar {
    /// By clock its next date.
    nexts: Vec<u64>,
    /// None of them is earlier than this one.
    least: u64,
}

impl Model for Calendar {
    ghost use Rattle.std.specs.Prelude.{List, ℕ, ◌≤◌};
    ghost use Rattle.std.specs.List.{All};

    ghost Value = { List ℕ };

    ghost view = { λ calendar. calendar.nexts.items };

    ghost invariant = { λ calendar. All (λ next. calendar.least ≤ next) calendar.nexts.items };
}

/// By clock its first date.
fn first_dates(alloc: Global, clocks: &[Clock]) -> Result<Vec<u64>, Memory>
    ensures count { IfOk result (λ nexts. length nexts.items ≡ length clocks.now) }
    ensures nexts { IfOk result (λ nexts. AreNext clocks.now 0 nexts.items) }
{
    Ok(
        clocks
            .iter()
            .map(|clock| u64::from(clock.first))
            .collect(alloc)?,
    )
}

/// By clock its first date behind this one.
fn dates_behind(alloc: Global, clocks: &[Clock], date: u64) -> Result<Vec<u64>, Memory>
    requires clocks { All IsClock clocks.now }
    requires early { date < 2 ^ 40 }
    ensures count { IfOk result (λ nexts. length nexts.items ≡ length clocks.now) }
    ensures nexts { IfOk result (λ nexts. AreNext clocks.now (date + 1) nexts.items) }
{
    let mut nexts = Vec::with_capacity(alloc, clocks.len())?;
    'clocks: for clock in 0..clocks.len() {
        nexts.push(clocks[clock].from_date(date + 1, 0))?;
    }
    Ok(nexts)
}

/// The first date of a clock behind this one, by its first one from this one on.
fn next_behind(clock: Clock, date: u64, next: u64) -> u64
    requires clock { IsClock clock }
    requires early { date ≤ 2 ^ 40 }
    requires next { next ≡ from_date clock date 0 }
    ensures { result ≡ from_date clock (date + 1) 0 }
{
    dates();
    if next == date {
        date + u64::from(clock.period)
    } else {
        next
    }
}

/// Whether a clock has a date, by its first one behind it.
#[tactic(auto, using(crate::proofs::Calendars::had_is))]
fn had(clock: Clock, date: u64, next: u64) -> bool
    requires clock { IsClock clock }
    requires early { date ≤ 2 ^ 40 }
    requires next { next ≡ from_date clock (date + 1) 0 }
    ensures { result ≡ is_date clock date }
{
    dates();
    next == date + u64::from(clock.period)
}

/// By clock its first date behind this one, by its first one from this one on; and a date that is no later than any of these.
fn pass_all(nexts: &mut [u64], clocks: &[Clock], date: u64) -> u64
    requires clocks { All IsClock clocks.now }
    requires early { date ≤ 2 ^ 40 }
    requires count { length nexts.old ≡ length clocks.now }
    requires nexts { AreNext clocks.now date nexts.old }
    ensures nexts { AreNext clocks.now (date + 1) nexts.new }
    ensures least { All (λ next. result ≤ next) nexts.new }
{
    let mut least = u64::MAX;
    'clocks: for clock in 0..nexts.len() {
        let next = next_behind(clocks[clock], date, nexts[clock]);
        nexts[clock] = next;
        least = least.min(next);
    }
    least
}

impl Calendar {
    /// By clock its first date. The only error is want of memory; no other call takes any.
    pub fn new(alloc: Global, clocks: &[Clock]) -> Result<Calendar, Memory>
        ensures count { IfOk result (λ calendar. length calendar ≡ length clocks.now) }
        ensures nexts { IfOk result (λ calendar. AreNext clocks.now 0 calendar) }
    {
        Ok(Calendar {
            nexts: first_dates(alloc, clocks)?,
            least: 0,
        })
    }

    /// By clock its first date behind this one. The only error is want of memory.
    pub fn behind(alloc: Global, clocks: &[Clock], date: u64) -> Result<Calendar, Memory>
        requires clocks { All IsClock clocks.now }
        requires early { date < 2 ^ 40 }
        ensures count { IfOk result (λ calendar. length calendar ≡ length clocks.now) }
        ensures nexts { IfOk result (λ calendar. AreNext clocks.now (date + 1) calendar) }
    {
        Ok(Calendar {
            nexts: dates_behind(alloc, clocks, date)?,
            least: 0,
        })
    }

    /// Whether a clock may have this date: where not, each has its next one later.
    pub fn may_have(&self, date: u64) -> bool
        ensures { IsFalse result → All (λ next. date < next) self.now }
    {
        self.least <= date
    }

    /// A date that is no later than the next one of any clock.
    pub fn least(&self) -> u64
        ensures { All (λ next. result ≤ next) self.now }
    {
        self.least
    }

    /// The next date of a clock.
    pub fn next(&self, clock: u32) -> u64
        requires { clock < length self.now }
        ensures { slice_get self.now clock ≡ Some result }
    {
        self.nexts[clock as usize]
    }

    /// The next date of a clock; None where there is no such clock.
    pub fn find(&self, clock: u32) -> Option<u64>
        ensures { result ≡ slice_get self.now clock }
    {
        self.nexts.get(clock as usize).copied()
    }

    /// Whether a clock had the date that passed last: whether its next one is a period behind it.
    pub fn had(&self, clocks: &[Clock], clock: u32, date: u64) -> bool
        requires clocks { All IsClock clocks.now }
        requires known { clock < length clocks.now }
        requires early { date ≤ 2 ^ 40 }
        requires stands { CalendarStands clocks.now (date + 1) self.now }
        ensures { result ≡ is_date (get_or clocks.now clock no_clock) date }
    {
        had(clocks[clock as usize], date, self.next(clock))
    }

    /// Whether some clock has a date, when each clock's next one behind it is told.
    pub fn any_had(&self, clocks: &[Clock], date: u64) -> bool
        requires clocks { All IsClock clocks.now }
        requires early { date ≤ 2 ^ 40 }
        requires stands { CalendarStands clocks.now (date + 1) self.now }
        ensures some { IsTrue result → (clock : ℕ) × (clock < length clocks.now) × (is_date (get_or clocks.now clock no_clock) date ≡ true) }
        ensures none { IsFalse result → (clock : ℕ) → clock < length clocks.now → is_date (get_or clocks.now clock no_clock) date ≡ false }
    {
        'clocks: for clock in 0..clocks.len() {
            if had(clocks[clock], date, self.nexts[clock]) {
                return true;
            }
        }
        false
    }

    /// A date passes: each clock that had it next goes on to its next one.
    pub fn pass(&mut self, clocks: &[Clock], date: u64)
        requires clocks { All IsClock clocks.now }
        requires early { date ≤ 2 ^ 40 }
        requires count { length self.old ≡ length clocks.now }
        requires nexts { AreNext clocks.now date self.old }
        ensures count { length self.new ≡ length self.old }
        ensures nexts { AreNext clocks.now (date + 1) self.new }
    {
        dates();
        if self.least > date {
            return;
        }
        self.least = pass_all(&mut self.nexts, clocks, date);
    }
}
