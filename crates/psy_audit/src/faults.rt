//! What is wrong with a line of a trace.
ghost use Rattle.std.specs.Prelude.{◌≡◌, ◌<◌, IfOk, Some, None, get_or, length, true, false, not, if◌then◌else◌};
ghost use Rattle.std.specs.List.{list_all, list_any, range_with_len};
ghost use Rattle.psy_audit.specs.Befores.{StandsFor};
ghost use Rattle.psy_audit.specs.Courses.{has_begun, has_course, has_cycles};
ghost use Rattle.psy_audit.specs.Faults.{end_fault, fault_in, fault_of, has_names};
ghost use Rattle.psy_audit.specs.Looks.{is_look};
ghost use Rattle.psy_audit.specs.Publications.{is_next, is_published};
ghost use Rattle.psy_audit.specs.Tables.{IsTable, judge};
ghost use Rattle.psy_audit.specs.Traces.{Lines, body, is_end};
ghost use Rattle.psy_audit.specs.Turns.{is_over};
ghost use Rattle.psy_audit.specs.declared.said.Act.{Act as Action};
ghost use Rattle.psy_history.specs.Processors.{processors};

mod places;

use crate::before::Before;
use crate::courses::is_course;
use crate::cycles::are_cycles;
use crate::looks::is_look;
use crate::publications::{are_published, is_number};
use crate::said::{Act, Look, Publication, Said, Segment};
use crate::table::{Table, acts_of, publications_of, segments_near};
use crate::tables::rows::segments_of_number;
use crate::timing::first_of;
use crate::turns::{is_over, is_served};
use places::comes_behind;
use psy_base::Memory;
use psy_history::processors_of;
use std::alloc::Global;

/// The least number of what is wrong with a line that stands behind these, if anything is. The only error is want of memory.
pub fn fault_of(
    alloc: Global,
    table: &Table<'_>,
    before: &Before,
    line: &Option<Said>,
) -> Result<Option<u32>, Memory>
    requires { IsTable table.now }
    ensures { IfOk result (λ fault. (lines : Lines) → StandsFor table.now.plan.now.unit lines before.now
        → (line.now ≡ Some Said.Ended → list_any is_end lines ≡ false → body table.now.lines.now ≡ lines)
        → fault ≡ fault_of (judge table.now) table.now.lines.now lines line.now) }
{
    match line {
        None => Ok(Some(1)),
        Some(said) => {
            let fault = said_fault(alloc, table, before, said)?;
            Ok(fault)
        }
    }
}

// The same of what it says.
fn said_fault(
    alloc: Global,
    table: &Table<'_>,
    before: &Before,
    said: &Said,
) -> Result<Option<u32>, Memory>
    requires { IsTable table.now }
    ensures { IfOk result (λ fault. (lines : Lines) → StandsFor table.now.plan.now.unit lines before.now
        → (said.now ≡ Said.Ended → list_any is_end lines ≡ false → body table.now.lines.now ≡ lines)
        → fault ≡ fault_of (judge table.now) table.now.lines.now lines (Some said.now)) }
{
    let named = has_names(table, said);
    let behind = comes_behind(&before.last, said);
    match head_fault(before.ended, named, behind) {
        Some(number) => Ok(Some(number)),
        None => {
            let fault = fault_in(alloc, table, before, said)?;
            Ok(fault)
        }
    }
}

// A line that stands behind the end, has a name that is none, or comes before another
fn head_fault(ended: bool, named: bool, behind: bool) -> Option<u32>
    ensures { result ≡ (if ended then Some 1 else if not named then Some 2 else if not behind then Some 3 else None) }
{
    if ended {
        Some(1)
    } else if !named {
        Some(2)
    } else if !behind {
        Some(3)
    } else {
        None
    }
}

// Its names are those of agents and variables.
fn has_names(table: &Table<'_>, said: &Said) -> bool
    ensures { result ≡ has_names (judge table.now) said.now }
{
    let agents = table.plan.unit.agents.len();
    let variables = table.plan.unit.variables.len();
    match said {
        Said::Acted(act) => (act.agent as usize) < agents,
        Said::Published(publication) => (publication.variable as usize) < variables,
        Said::Served(segment) => (segment.agent as usize) < agents,
        Said::Looked(look) => {
            (look.agent as usize) < agents && (look.variable as usize) < variables
        }
        Said::Ended => true,
    }
}

// What is wrong with what a line tells of, where its names are those of agents and variables.
fn fault_in(
    alloc: Global,
    table: &Table<'_>,
    before: &Before,
    said: &Said,
) -> Result<Option<u32>, Memory>
    requires table { IsTable table.now }
    requires names { has_names (judge table.now) said.now ≡ true }
    ensures { IfOk result (λ fault. (lines : Lines) → StandsFor table.now.plan.now.unit lines before.now
        → (said.now ≡ Said.Ended → body table.now.lines.now ≡ lines) → fault ≡ fault_in (judge table.now) table.now.lines.now lines said.now) }
{
    match said {
        Said::Acted(act) => {
            let acted = act_fault(alloc, table, before, act)?;
            Ok(acted)
        }
        Said::Published(publication) => Ok(publication_fault(table, before, publication)),
        Said::Served(segment) => Ok(segment_fault(table, before, segment)),
        Said::Looked(look) => {
            let looked = look_fault(alloc, table, look)?;
            Ok(looked)
        }
        Said::Ended => Ok(end_fault(table, before)),
    }
}

fn act_fault(
    alloc: Global,
    table: &Table<'_>,
    before: &Before,
    act: &Act,
) -> Result<Option<u32>, Memory>
    requires table { IsTable table.now }
    requires agent { act.now.agent < length table.now.plan.now.unit.agents }
    ensures { IfOk result (λ fault. (lines : Lines) → StandsFor table.now.plan.now.unit lines before.now
        → fault ≡ fault_in (judge table.now) table.now.lines.now lines (Said.Acted act.now)) }
{
    let course = has_course(table, before, act);
    let cycles = has_cycles(alloc, table, act)?;
    Ok(first_unless(course, 4, cycles, 5))
}

// The number of the first of two that isn't so
fn first_unless(one: bool, number: u32, other: bool, next: u32) -> Option<u32>
    ensures { result ≡ (if not one then Some number else if not other then Some next else None) }
{
    if !one {
        Some(number)
    } else if !other {
        Some(next)
    } else {
        None
    }
}

// The number of what isn't so
fn fault_unless(holds: bool, number: u32) -> Option<u32>
    ensures { result ≡ (if not holds then Some number else None) }
{
    if holds { None } else { Some(number) }
}

fn has_course(table: &Table<'_>, before: &Before, act: &Act) -> bool
    requires table { IsTable table.now }
    requires agent { act.now.agent < length table.now.plan.now.unit.agents }
    ensures { (lines : Lines) → StandsFor table.now.plan.now.unit lines before.now → result ≡ has_course (judge table.now) table.now.lines.now lines act.now }
{
    is_course(
        table.plan,
        last_act(before, act.agent),
        acts_of(table, act.agent),
        act,
    )
}

// The last action of an agent.
fn last_act(before: &Before, agent: u32) -> Option<Act>
    ensures { result ≡ get_or before.now.acts agent None }
{
    match before.acts.get(agent as usize) {
        Some(last) => *last,
        None => None,
    }
}

fn has_cycles(alloc: Global, table: &Table<'_>, act: &Act) -> Result<bool, Memory>
    requires table { IsTable table.now }
    requires agent { act.now.agent < length table.now.plan.now.unit.agents }
    ensures { IfOk result (λ has. has ≡ has_cycles (judge table.now) table.now.lines.now act.now) }
{
    let its = segments_of_number(
        alloc,
        segments_near(table, act.agent, act.number),
        act.number,
    )?;
    Ok(are_cycles(table.plan, its.as_slice(), act))
}

fn publication_fault(table: &Table<'_>, before: &Before, publication: &Publication) -> Option<u32>
    requires table { IsTable table.now }
    requires variable { publication.now.variable < length table.now.plan.now.unit.variables }
    ensures { (lines : Lines) → StandsFor table.now.plan.now.unit lines before.now
        → result ≡ fault_in (judge table.now) table.now.lines.now lines (Said.Published publication.now) }
{
    let number = number_of(before, publication.variable);
    fault_unless(is_number(table.plan, number, publication), 6)
}

// How many publications a variable had.
fn number_of(before: &Before, variable: u32) -> u64
    ensures { result ≡ get_or before.now.published variable 0 }
{
    match before.published.get(variable as usize) {
        Some(number) => *number,
        None => 0,
    }
}

fn segment_fault(table: &Table<'_>, before: &Before, segment: &Segment) -> Option<u32>
    requires table { IsTable table.now }
    requires agent { segment.now.agent < length table.now.plan.now.unit.agents }
    ensures { (lines : Lines) → StandsFor table.now.plan.now.unit lines before.now
        → result ≡ fault_in (judge table.now) table.now.lines.now lines (Said.Served segment.now) }
{
    fault_unless(is_served(table, before, segment), 7)
}

fn look_fault(alloc: Global, table: &Table<'_>, look: &Look) -> Result<Option<u32>, Memory>
    requires table { IsTable table.now }
    requires agent { look.now.agent < length table.now.plan.now.unit.agents }
    requires variable { look.now.variable < length table.now.plan.now.unit.variables }
    ensures { IfOk result (λ fault. (lines : Lines) → fault ≡ fault_in (judge table.now) table.now.lines.now lines (Said.Looked look.now)) }
{
    let seen = has_look(alloc, table, look)?;
    Ok(fault_unless(seen, 8))
}

fn has_look(alloc: Global, table: &Table<'_>, look: &Look) -> Result<bool, Memory>
    requires table { IsTable table.now }
    requires agent { look.now.agent < length table.now.plan.now.unit.agents }
    requires variable { look.now.variable < length table.now.plan.now.unit.variables }
    ensures { IfOk result (λ has. has ≡ is_look (judge table.now) table.now.lines.now look.now) }
{
    let its = segments_of_number(
        alloc,
        segments_near(table, look.agent, look.number),
        look.number,
    )?;
    Ok(is_look(
        table.plan,
        acts_of(table, look.agent),
        its.as_slice(),
        publications_of(table, look.variable),
        look,
    ))
}

// What is wrong at the end, where the lines before are all that count.
fn end_fault(table: &Table<'_>, before: &Before) -> Option<u32>
    requires table { IsTable table.now }
    ensures { (lines : Lines) → StandsFor table.now.plan.now.unit lines before.now → body table.now.lines.now ≡ lines
        → result ≡ end_fault (judge table.now) table.now.lines.now }
{
    let begun = all_begun(table);
    let published = all_published(table);
    let over = all_over(table, before);
    missing(begun, published, over)
}

// What is missing at the end
fn missing(begun: bool, published: bool, over: bool) -> Option<u32>
    ensures { result ≡ (if not begun then Some 4 else if not published then Some 6 else if not over then Some 7 else None) }
{
    if !begun {
        Some(4)
    } else if !published {
        Some(6)
    } else if !over {
        Some(7)
    } else {
        None
    }
}

fn all_begun(table: &Table<'_>) -> bool
    requires { IsTable table.now }
    ensures { result ≡ list_all (has_begun (judge table.now) table.now.lines.now) (range_with_len 0 (length table.now.plan.now.unit.agents)) }
{
    'agents: for agent in 0..table.plan.unit.agents.len() as u32 {
        if !has_begun(table, agent) {
            return false;
        }
    }
    true
}

fn has_begun(table: &Table<'_>, agent: u32) -> bool
    requires table { IsTable table.now }
    requires agent { agent < length table.now.plan.now.unit.agents }
    ensures { result ≡ has_begun (judge table.now) table.now.lines.now agent }
{
    u64::from(table.plan.until) <= first_of(table.plan, agent) || has_some(acts_of(table, agent))
}

// There is an action.
fn has_some(acts: &[Act]) -> bool
    ensures { result ≡ list_any (λ (a : Action). true) acts.now }
{
    !acts.is_empty()
}

fn all_published(table: &Table<'_>) -> bool
    requires { IsTable table.now }
    ensures { result ≡ list_all (is_published (judge table.now) table.now.lines.now) (range_with_len 0 (length table.now.plan.now.unit.variables)) }
{
    'variables: for variable in 0..table.plan.unit.variables.len() as u32 {
        if !is_published(table, variable) {
            return false;
        }
    }
    true
}

fn is_published(table: &Table<'_>, variable: u32) -> bool
    requires table { IsTable table.now }
    requires variable { variable < length table.now.plan.now.unit.variables }
    ensures { result ≡ is_published (judge table.now) table.now.lines.now variable }
{
    are_published(table.plan, variable, publications_of(table, variable).len())
}

fn all_over(table: &Table<'_>, before: &Before) -> bool
    requires { IsTable table.now }
    ensures { (lines : Lines) → StandsFor table.now.plan.now.unit lines before.now → body table.now.lines.now ≡ lines
        → result ≡ list_all (is_over (judge table.now) table.now.lines.now) (range_with_len 0 (processors table.now.plan.now.unit)) }
{
    'processors: for processor in 0..u64::from(processors_of(&table.plan.unit)) {
        if !is_over(table, before, processor) {
            return false;
        }
    }
    true
}
