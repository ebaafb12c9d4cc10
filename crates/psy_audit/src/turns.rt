//! The stretches of a processor: each is of the action that comes first, and none is left while one is pending.
ghost use Rattle.std.specs.Prelude.{◌≡◌, ◌*◌, ◌<◌, ◌==◌, ◌&&◌, ℕ, length, get_or, not};
ghost use Rattle.std.specs.List.{list_all, list_any};
ghost use Rattle.psy_audit.specs.Befores.{StandsFor};
ghost use Rattle.psy_audit.specs.Tables.{IsTable, judge};
ghost use Rattle.psy_audit.specs.Traces.{Lines, acts_of, segments};
ghost use Rattle.psy_audit.specs.Turns.{between, first_at, is_idle, is_of_act, is_over, is_own, is_served, past_on, segments_on, touches};
ghost use Rattle.psy_audit.specs.declared.said.Act.{Act as Action};
ghost use Rattle.psy_audit.specs.declared.said.Segment.{Segment as Stretch};
ghost use Rattle.psy_history.specs.Processors.{processors};

use crate::before::Before;
use crate::cycles::is_filled;
use crate::said::{Act, Segment};
use crate::table::{Table, acts_of};
use crate::walk::all_suit;
use psy_history::processor_of;

/// A stretch that stands behind the lines before has cycles, all before the last date, and is of an action of its processor; it touches none before
/// it of the same action; at each of its cycles none but its action comes first, and in the gap before it none is pending.
pub fn is_served(table: &Table<'_>, before: &Before, segment: &Segment) -> bool
    requires table { IsTable table.now }
    requires agent { segment.now.agent < length table.now.plan.now.unit.agents }
    ensures { (lines : Lines) → StandsFor table.now.plan.now.unit lines before.now
        → result ≡ is_served (judge table.now) table.now.lines.now lines segment.now }
{
    is_filled(segment)
        && (segment.past <= end_of(table)
            && (is_of_act(table, segment) && is_turn(table, before, segment)))
}

// A stretch of one of the processors touches none before it of the same action; and it has its turn.
fn is_turn(table: &Table<'_>, before: &Before, segment: &Segment) -> bool
    requires table { IsTable table.now }
    requires processor { segment.now.processor < processors table.now.plan.now.unit }
    ensures { (lines : Lines) → StandsFor table.now.plan.now.unit lines before.now
        → result ≡ (not (list_any (touches segment.now) (segments_on segment.now.processor lines))
        && (list_all (λ (cycle : ℕ). is_own segment.now (first_at (judge table.now) table.now.lines.now segment.now.processor cycle))
        (between segment.now.first segment.now.past)
        && is_idle (judge table.now) table.now.lines.now segment.now.processor (past_on segment.now.processor lines) segment.now.first)) }
{
    has_turn(
        table,
        before.segments.as_slice(),
        past_on(before, segment.processor),
        segment,
    )
}

// The same behind these stretches, where the last of its processor was over before this cycle.
fn has_turn(table: &Table<'_>, others: &[Segment], past: u64, segment: &Segment) -> bool
    requires { IsTable table.now }
    ensures { result ≡ (not (list_any (λ (b : Stretch). b.processor == segment.now.processor && touches segment.now b) others.now)
        && (list_all (λ (cycle : ℕ). is_own segment.now (first_at (judge table.now) table.now.lines.now segment.now.processor cycle))
        (between segment.now.first segment.now.past)
        && is_idle (judge table.now) table.now.lines.now segment.now.processor past segment.now.first)) }
{
    !touches_any(others, segment)
        && (all_suit(
            table,
            Some(*segment),
            segment.processor,
            segment.first,
            segment.past,
        ) && all_suit(table, None, segment.processor, past, segment.first))
}

// The cycle behind the last one of a run.
fn end_of(table: &Table<'_>) -> u64
    requires { IsTable table.now }
    ensures { result ≡ table.now.plan.now.until * table.now.plan.now.unit.quantum }
{
    u64::from(table.plan.until) * u64::from(table.plan.unit.quantum)
}

// A stretch is of an action, on the processor of its agent.
fn is_of_act(table: &Table<'_>, segment: &Segment) -> bool
    requires table { IsTable table.now }
    requires agent { segment.now.agent < length table.now.plan.now.unit.agents }
    ensures { result ≡ is_of_act (judge table.now) table.now.lines.now segment.now }
{
    u64::from(processor_of(&table.plan.unit, segment.agent)) == segment.processor
        && has_act(table, segment.agent, segment.number)
}

// An agent has an action of this number.
fn has_act(table: &Table<'_>, agent: u32, number: u64) -> bool
    requires table { IsTable table.now }
    requires agent { agent < length table.now.plan.now.unit.agents }
    ensures { result ≡ list_any (λ (a : Action). a.number == number) (acts_of agent table.now.lines.now) }
{
    has_number(acts_of(table, agent), number)
}

// One of some actions has this number.
fn has_number(acts: &[Act], number: u64) -> bool
    ensures { result ≡ list_any (λ (a : Action). a.number == number) acts.now }
{
    acts.iter().any(|act| act.number == number)
}

// A stretch touches one before it of the same action and processor.
fn touches_any(before: &[Segment], segment: &Segment) -> bool
    ensures { result ≡ list_any (λ (b : Stretch). b.processor == segment.now.processor && touches segment.now b) before.now }
{
    before.iter().any(|other| touches(other, segment))
}

fn touches(other: &Segment, segment: &Segment) -> bool
    ensures { result ≡ (other.now.processor == segment.now.processor && touches segment.now other.now) }
{
    other.processor == segment.processor
        && (other.agent == segment.agent
            && (other.number == segment.number && segment.first <= other.past))
}

// The cycle behind the last stretch of a processor, and 0 where there is none.
fn past_on(before: &Before, processor: u64) -> u64
    ensures { result ≡ get_or before.now.past processor 0 }
{
    match before.past.get(processor as usize) {
        Some(past) => *past,
        None => 0,
    }
}

/// Nothing is pending on a processor behind its last stretch, before the last date, where these are all lines that count.
pub fn is_over(table: &Table<'_>, before: &Before, processor: u64) -> bool
    requires table { IsTable table.now }
    requires processor { processor < processors table.now.plan.now.unit }
    ensures { (lines : Lines) → StandsFor table.now.plan.now.unit lines before.now → segments lines ≡ segments table.now.lines.now
        → result ≡ is_over (judge table.now) table.now.lines.now processor }
{
    all_suit(
        table,
        None,
        processor,
        past_on(before, processor),
        end_of(table),
    )
}
