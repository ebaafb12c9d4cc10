//! A trace is judged.
ghost use Rattle.std.specs.Prelude.{◌≡◌, ◌+◌, ◌<◌, ◌≤◌, ◌⊎◌, ℕ, IfOk, Err, Some, None, MatchResult, ⊤, if◌then◌else◌, length, option_map, slice_get};
ghost use Rattle.psy_audit.specs.Answers.{fault_at, wrong_of};
ghost use Rattle.psy_audit.specs.Faults.{IsLegal, first_fault};
ghost use Rattle.psy_audit.specs.Judging.{judged_of};
ghost use Rattle.psy_audit.specs.Tables.{IsTable, judge};
ghost use Rattle.psy_audit.specs.Texts.{lines_in};
ghost use Rattle.psy_audit.specs.Traces.{acts as acts_told, looks as looks_told};
ghost use Rattle.psy_base.specs.declared.limits.TheConstants.{FILE_BYTES};
ghost use Rattle.psy_dates.specs.Plans.{IsPlan};
ghost use Rattle.psy_history.specs.Scripts.{IsScript};
ghost use Rattle.psy_meaning.specs.Units.{IsBare};

use crate::before::Before;
use crate::faults::fault_of;
use crate::order::declared_of;
use crate::read::read_trace;
use crate::rows::rows_of;
use crate::said::{Act, Look, Said};
use crate::table::Table;
use crate::tables::rows::publications_by_variable;
use crate::tables::{acts_in, looks_in, publications_in, segments_in};
use psy_base::Memory;
use psy_dates::Plan;
use psy_history::Script;
use psy_tree::Unit;
use std::alloc::Global;
use thiserror::Error;

/// A legal trace, by how many actions and how many looks it tells of.
#[derive(Clone, Copy, Debug, PartialEq, Eq)]
pub struct Legal {
    pub acts: u32,
    pub looks: u32,
}

/// Why a text isn't told to be a legal trace.
#[derive(Clone, Copy, Debug, PartialEq, Eq, Error)]
pub enum AuditFault {
    /// The first line that has a fault, counted from 1, and the least number of its faults, from 1 to 8.
    #[error("fault {number} in line {line}")]
    Fault { number: u32, line: u32 },
    /// Want of memory.
    #[error("out of memory")]
    Memory,
}

impl From<Memory> for AuditFault {
    ghost use Rattle.psy_audit.specs.declared.verdict.AuditFault.TheVariants.{Memory};

    ghost from_gives = { λ _ fault. fault ≡ Memory };

    fn from(_memory: Memory) -> AuditFault {
        AuditFault::Memory
    }
}

/// Judges the text of a trace, apart from any run: it is legal, or has a first line with a fault. The only other error is want of memory.
pub fn audit(alloc: Global, text: &[u8], plan: &Plan, script: &Script) -> Result<Legal, AuditFault>
    requires text { length text.now ≤ FILE_BYTES }
    requires plan { IsPlan plan.now }
    requires script { IsScript plan.now.unit script.now }
    // What is told to be legal is, and its actions and looks are counted.
    ensures legal { IfOk result (λ legal. IsLegal (judged_of plan.now script.now) (lines_in plan.now.unit plan.now.until text.now)) }
    ensures acts { IfOk result (λ legal. legal.acts ≡ length (acts_told (lines_in plan.now.unit plan.now.until text.now))) }
    ensures looks { IfOk result (λ legal. legal.looks ≡ length (looks_told (lines_in plan.now.unit plan.now.until text.now))) }

    // What is told to be wrong is the first fault.
    ensures fault { (number line : ℕ) → result ≡ Err (AuditFault.Fault number line)
        → first_fault (judged_of plan.now script.now) (lines_in plan.now.unit plan.now.until text.now) ≡ Some (fault_at number line) }

    // A legal trace is told to be one, and the first fault of another is told, but for want of memory.
    ensures all_legal { IsLegal (judged_of plan.now script.now) (lines_in plan.now.unit plan.now.until text.now)
        → MatchResult result (λ legal. ⊤) (λ fault. fault ≡ AuditFault.Memory) }
    ensures all_faults { (number line : ℕ)
        → first_fault (judged_of plan.now script.now) (lines_in plan.now.unit plan.now.until text.now) ≡ Some (fault_at number line)
        → MatchResult result (λ legal. ⊥) (λ fault. (fault ≡ AuditFault.Fault number line) ⊎ (fault ≡ AuditFault.Memory)) }
{
    judge_text(alloc, text, plan, script)
}

// It is judged line by line.
fn judge_text(alloc: Global, text: &[u8], plan: &Plan, script: &Script) -> Result<Legal, AuditFault>
    requires text { length text.now ≤ FILE_BYTES }
    requires plan { IsPlan plan.now }
    requires script { IsScript plan.now.unit script.now }
    ensures legal { IfOk result (λ legal. IsLegal (judged_of plan.now script.now) (lines_in plan.now.unit plan.now.until text.now)) }
    ensures acts { IfOk result (λ legal. legal.acts ≡ length (acts_told (lines_in plan.now.unit plan.now.until text.now))) }
    ensures looks { IfOk result (λ legal. legal.looks ≡ length (looks_told (lines_in plan.now.unit plan.now.until text.now))) }
    ensures fault { (number line : ℕ) → result ≡ Err (AuditFault.Fault number line)
        → first_fault (judged_of plan.now script.now) (lines_in plan.now.unit plan.now.until text.now) ≡ Some (fault_at number line) }
{
    let lines = read_trace(alloc, text, &plan.unit, u64::from(plan.until))?;
    judge_lines(alloc, lines.as_slice(), plan, script)
}

// The same of lines.
fn judge_lines(
    alloc: Global,
    lines: &[Option<Said>],
    plan: &Plan,
    script: &Script,
) -> Result<Legal, AuditFault>
    requires few { length lines.now ≤ FILE_BYTES }
    requires plan { IsPlan plan.now }
    requires script { IsScript plan.now.unit script.now }
    ensures legal { IfOk result (λ legal. IsLegal (judged_of plan.now script.now) lines.now) }
    ensures acts { IfOk result (λ legal. legal.acts ≡ length (acts_told lines.now)) }
    ensures looks { IfOk result (λ legal. legal.looks ≡ length (looks_told lines.now)) }
    ensures fault { (number line : ℕ) → result ≡ Err (AuditFault.Fault number line)
        → first_fault (judged_of plan.now script.now) lines.now ≡ Some (fault_at number line) }
{
    let acts = acts_in(alloc, lines)?;
    let looks = looks_in(alloc, lines)?;
    let acts_seen = acts.as_slice();
    let looks_seen = looks.as_slice();
    let found = wrong_in(alloc, lines, plan, script, acts_seen)?;
    match found {
        Some(wrong) => Err(AuditFault::Fault {
            number: wrong.number,
            line: wrong.line,
        }),
        None => Ok(legal_of(acts_seen, looks_seen)),
    }
}

// So many actions and looks
fn legal_of(acts: &[Act], looks: &[Look]) -> Legal
    requires acts { length acts.now ≤ FILE_BYTES }
    requires looks { length looks.now ≤ FILE_BYTES }
    ensures acts { result.acts ≡ length acts.now }
    ensures looks { result.looks ≡ length looks.now }
{
    Legal {
        acts: acts.len() as u32,
        looks: looks.len() as u32,
    }
}

// A fault of a line, by numbers.
#[derive(Clone, Copy)]
struct Wrong {
    number: u32,
    line: u32,
}

// The first fault of lines, where these are their actions.
fn wrong_in(
    alloc: Global,
    lines: &[Option<Said>],
    plan: &Plan,
    script: &Script,
    acts: &[Act],
) -> Result<Option<Wrong>, Memory>
    requires few { length lines.now ≤ FILE_BYTES }
    requires plan { IsPlan plan.now }
    requires script { IsScript plan.now.unit script.now }
    requires acts { acts.now ≡ acts_told lines.now }
    ensures { IfOk result (λ wrong. option_map wrong_of wrong ≡ first_fault (judged_of plan.now script.now) lines.now) }
{
    let agents = agents_of(&plan.unit);
    let variables = variables_of(&plan.unit);
    let declared = declared_of(alloc, agents)?;
    let segments = segments_in(alloc, lines)?;
    let publications = publications_in(alloc, lines)?;
    let stretches = segments.as_slice();
    let told = publications.as_slice();
    let order = declared.as_slice();
    let rows = rows_of(alloc, plan, acts, stretches, agents)?;
    let published = publications_by_variable(alloc, told, variables)?;
    let table = Table {
        plan,
        script,
        lines,
        declared: order,
        rows: &rows,
        publications: &published,
    };
    let wrong = first_wrong(alloc, &table)?;
    Ok(wrong)
}

fn agents_of(unit: &Unit) -> u32
    requires { IsBare unit.now }
    ensures { result ≡ length unit.now.agents }
{
    unit.agents.len() as u32
}

fn variables_of(unit: &Unit) -> u32
    requires { IsBare unit.now }
    ensures { result ≡ length unit.now.variables }
{
    unit.variables.len() as u32
}

// The first fault of a trace.
fn first_wrong(alloc: Global, table: &Table<'_>) -> Result<Option<Wrong>, Memory>
    requires table { IsTable table.now }
    requires few { length table.now.lines.now ≤ FILE_BYTES }
    ensures { IfOk result (λ wrong. option_map wrong_of wrong ≡ first_fault (judge table.now) table.now.lines.now) }
{
    let mut before = Before::new(alloc, &table.plan.unit)?;
    let mut place: usize = 0;
    'lines: while place < table.lines.len() {
        let said = line_at(table.lines, place);
        let fault = fault_of(alloc, table, &before, said)?;
        match fault {
            Some(number) => return Ok(Some(wrong_at(number, place))),
            None => before.pass(said)?,
        }
        place += 1;
    }
    Ok(missing_end(&before, place))
}

// The line at a place.
fn line_at(lines: &[Option<Said>], place: usize) -> &Option<Said>
    requires { place < length lines.now }
    ensures { slice_get lines.now place ≡ Some result.now }
{
    &lines[place]
}

fn wrong_at(number: u32, place: usize) -> Wrong
    requires { place ≤ FILE_BYTES }
    ensures { wrong_of result ≡ fault_at number (place + 1) }
{
    Wrong {
        number,
        line: place as u32 + 1,
    }
}

// Behind the last line an end that is missing is one of form.
fn missing_end(before: &Before, place: usize) -> Option<Wrong>
    requires { place ≤ FILE_BYTES }
    ensures { option_map wrong_of result ≡ (if before.now.ended then None else Some (fault_at 1 (place + 1))) }
{
    if before.ended {
        None
    } else {
        Some(wrong_at(1, place))
    }
}
