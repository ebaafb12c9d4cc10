//! Which action comes first on a processor, cycle by cycle.
ghost use Rattle.std.specs.Prelude.{◌≡◌, ◌<◌, ◌≤◌, ℕ};
ghost use Rattle.std.specs.List.{list_all};
ghost use Rattle.psy_audit.specs.Rows.{suits};
ghost use Rattle.psy_audit.specs.Tables.{IsTable, judge};
ghost use Rattle.psy_audit.specs.Turns.{between, first_at, is_own};

use crate::first::{first_in, next_change};
use crate::order::order_at;
use crate::said::{Act, Segment};
use crate::table::Table;

/// At each cycle from one on, before another, no action comes first on a processor but that of the stretch; none at all, where there is no stretch.
pub fn all_suit(table: &Table<'_>, own: Option<Segment>, processor: u64, from: u64, to: u64) -> bool
    requires { IsTable table.now }
    ensures { result ≡ list_all (λ (cycle : ℕ). suits own (first_at (judge table.now) table.now.lines.now processor cycle)) (between from to) }
{
    let mut cycle = from;
    'changes: while cycle < to {
        if !suits(own, first_at(table, processor, cycle)) {
            return false;
        }
        cycle = change_behind(table, processor, cycle, to);
    }
    true
}

// The action that comes first on a processor at a cycle.
fn first_at(table: &Table<'_>, processor: u64, cycle: u64) -> Option<Act>
    requires { IsTable table.now }
    ensures { result ≡ first_at (judge table.now) table.now.lines.now processor cycle }
{
    let order = order_at(table.declared, table.script.orders.as_slice(), cycle);
    first_in(table.plan, table.rows, order, processor, cycle)
}

// The next cycle at which another action may come first, or the last one where there is none before it.
fn change_behind(table: &Table<'_>, processor: u64, cycle: u64, to: u64) -> u64
    requires table { IsTable table.now }
    requires some { cycle < to }
    ensures behind { cycle < result }
    ensures within { result ≤ to }
    ensures same { (c : ℕ) → cycle ≤ c → c < result
        → first_at (judge table.now) table.now.lines.now processor c ≡ first_at (judge table.now) table.now.lines.now processor cycle }
{
    next_change(
        table.plan,
        table.rows,
        table.script.orders.as_slice(),
        processor,
        cycle,
        to,
    )
}

fn suits(own: Option<Segment>, first: Option<Act>) -> bool
    ensures { result ≡ suits own first }
{
    match own {
        None => first.is_none(),
        Some(segment) => is_own(&segment, first),
    }
}

fn is_own(segment: &Segment, first: Option<Act>) -> bool
    ensures { result ≡ is_own segment.now first }
{
    match first {
        None => true,
        Some(act) => act.agent == segment.agent && act.number == segment.number,
    }
}
