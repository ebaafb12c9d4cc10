//! What is counted, and the limits.

ghost use Rattle.std.specs.Prelude.{◌≡◌, ◌-◌, ◌^◌, min, length, nat_lt, Some};
ghost use Rattle.std.specs.List.{list_any, count_by, find};
ghost use Rattle.psy_tree.specs.Paths as paths;
ghost use Rattle.psy_tree.specs.Scope.{slots_of};
ghost use Rattle.psy_tree.specs.Stands as stands;
ghost use Rattle.psy_tree.specs.Stands.{points_of, passes, counts};
ghost use Rattle.psy_rules.specs.Counted.{counts_as};

use crate::scope::{is_agent, is_clock, is_function, is_stream};
use crate::slots::slot_count;
use psy_base::limits::{AGENTS, CLOCKS, FUNCTIONS, NAMES, POINTS, STREAMS, VARIABLES};
use psy_tree::{Count, Item, RawStmt};

#[cycle(advances)]
fn advances(stmt: &RawStmt) -> usize
    ensures { result ≡ min (paths.advances stmt.now) (2 ^ 64 - 1) }
{
    match stmt {
        RawStmt::Advance { .. } => 1,
        RawStmt::If(_, branch, None) => advances_in(branch.as_slice()),
        RawStmt::If(_, branch, Some(other)) => {
            advances_in(branch.as_slice()).saturating_add(advances_in(other.as_slice()))
        }
        RawStmt::While { body, .. } => advances_in(body.as_slice()),
        _ => 0,
    }
}

#[cycle(advances)]
fn advances_in(stmts: &[RawStmt]) -> usize
    ensures { result ≡ min (paths.advances_list stmts.now) (2 ^ 64 - 1) }
{
    let mut n: usize = 0;
    for stmt in stmts {
        n = n.saturating_add(advances(stmt));
    }
    n
}

fn has_many_names(item: &Item) -> bool
    ensures { result ≡ nat_lt NAMES (length (slots_of item.now)) }
{
    slot_count(item) > NAMES
}

fn has_many_points(item: &Item) -> bool
    ensures { result ≡ nat_lt POINTS (points_of item.now) }
{
    match item {
        Item::Agent { stmts, .. } => advances_in(stmts.as_slice()) >= POINTS,
        _ => false,
    }
}

fn is_counted(item: &Item, what: Count) -> bool
    ensures { result ≡ counts_as what item.now }
{
    match what {
        Count::Clocks => is_clock(Some(item)),
        Count::Agents => is_agent(Some(item)),
        Count::Variables => is_variable(item),
        Count::Streams => is_stream(Some(item)),
        Count::Functions => is_function(Some(item)),
        Count::Names | Count::Points => false,
    }
}

fn is_variable(item: &Item) -> bool
    ensures { result ≡ stands.is_variable (Some item.now) }
{
    matches!(item, Item::Temporal { .. } | Item::Input { .. })
}

/// How many declarations there are of a kind that is counted over the whole program.
pub fn count(items: &[Item], what: Count) -> usize
    ensures { result ≡ count_by (counts_as what) items.now }
{
    let mut n: usize = 0;
    for item in items {
        if is_counted(item, what) {
            n += 1;
        }
    }
    n
}

fn any_has_many_names(items: &[Item]) -> bool
    ensures { result ≡ list_any (λ i. nat_lt NAMES (length (slots_of i))) items.now }
{
    for item in items {
        if has_many_names(item) {
            return true;
        }
    }
    false
}

fn any_has_many_points(items: &[Item]) -> bool
    ensures { result ≡ list_any (λ i. nat_lt POINTS (points_of i)) items.now }
{
    for item in items {
        if has_many_points(item) {
            return true;
        }
    }
    false
}

/// The first count that passes its limit.
pub fn first_passed(items: &[Item]) -> Option<Count>
    ensures { result ≡ find (passes items.now) counts }
{
    if count(items, Count::Clocks) > CLOCKS {
        return Some(Count::Clocks);
    }
    if count(items, Count::Agents) > AGENTS {
        return Some(Count::Agents);
    }
    if count(items, Count::Variables) > VARIABLES {
        return Some(Count::Variables);
    }
    if count(items, Count::Streams) > STREAMS {
        return Some(Count::Streams);
    }
    if count(items, Count::Functions) > FUNCTIONS {
        return Some(Count::Functions);
    }
    if any_has_many_names(items) {
        return Some(Count::Names);
    }
    if any_has_many_points(items) {
        return Some(Count::Points);
    }
    None
}
