//! From bytes to an opening.
ghost use Rattle.std.specs.Prelude.{◌≡◌, ◌≤◌, [], Err, IfErr, IfOk, None, OnOk, Some, length, ℕ};
ghost use Rattle.psy_base.specs.declared.limits.TheConstants.{FILE_BYTES};
ghost use Rattle.psy_dates.specs.Plans.{IsPlan};
ghost use Rattle.psy_snap.specs.declared.fault.StateFault.TheVariants.{Fault};
ghost use Rattle.psy_snap.specs.Bytes.{spelling};
ghost use Rattle.psy_snap.specs.Faults.{faults_of, least_fault};
ghost use Rattle.psy_snap.specs.Forms.{form_of};
ghost use Rattle.psy_snap.specs.Plans.{IsReadable};
ghost use Rattle.psy_snap.specs.Ranges.{FitsState};
ghost use Rattle.psy_snap.specs.Shapes.{HasForm};
ghost use Rattle.psy_snap.specs.Reading.{Gives, IsWithin, answer_of, end_at, fault_from, state_at};

use crate::agents::agents;
use crate::fault::{ReadError, StateFault};
use crate::figures::head;
use crate::streams::streams;
use crate::variables::variables;
use psy_dates::{Opening, Plan};
use psy_graph::Graph;
use std::alloc::Global;

/// No more bytes.
fn end(bytes: &[u8]) -> Result<(), ReadError>
    ensures { Gives (λ _. (tt, [])) result (end_at bytes.now) }
{
    match bytes {
        [] => Ok(()),
        [_, ..] => Err(ReadError::Bad {
            number: 1,
            left: bytes.len(),
        }),
    }
}

#[tactic(auto, unfolding(crate::specs::Reading::state_at, crate::specs::Forms::form_of))]
fn state(alloc: Global, bytes: &[u8], plan: &Plan, graphs: &[Graph]) -> Result<Opening, ReadError>
    requires plan { IsReadable plan.now }
    requires graphs { length graphs.now ≡ length plan.now.unit.agents }
    ensures { Gives (λ it. (it, [])) result (state_at (form_of plan.now graphs.now) bytes.now) }
{
    let (date, rest) = head(plan.until, bytes)?;
    let (agents, rest) = agents(alloc, plan, graphs, date, rest)?;
    let (variables, rest) = variables(alloc, plan, date, rest)?;
    let (streams, rest) = streams(alloc, plan, date, agents.as_slice(), rest)?;
    end(rest)?;
    Ok(Opening {
        date: u64::from(date),
        agents,
        variables,
        streams,
    })
}

/// The fault that an error is where there are so many bytes.
fn fault_from(error: ReadError, len: usize) -> StateFault
    requires within { IsWithin len error }
    requires few { len ≤ FILE_BYTES }
    ensures { result ≡ fault_from len error }
{
    match error {
        ReadError::Bad { number, left } => StateFault::Fault {
            number,
            place: (len - left) as u32,
        },
        ReadError::Memory => StateFault::Memory,
    }
}

/// What reading came to, as an answer.
fn answer_of(reading: Result<Opening, ReadError>, len: usize) -> Result<Opening, StateFault>
    requires within { IfErr reading (IsWithin len) }
    requires few { len ≤ FILE_BYTES }
    ensures { result ≡ answer_of len reading }
{
    match reading {
        Ok(opening) => Ok(opening),
        Err(error) => Err(fault_from(error, len)),
    }
}

/// The opening that the bytes of a state spell, by the plan that is to be run and the graphs of its agents' actions, or the bytes' first fault:
/// by place, then by number. The only other error is want of memory.
pub fn read(
    alloc: Global,
    bytes: &[u8],
    plan: &Plan,
    graphs: &[Graph],
) -> Result<Opening, StateFault>
    requires few { length bytes.now ≤ FILE_BYTES }
    requires plan { IsPlan plan.now }
    requires graphs { length graphs.now ≡ length plan.now.unit.agents }
    ensures spelled { IfOk result (λ opening. spelling opening ≡ bytes.now) }
    ensures sound { OnOk result (least_fault (faults_of (form_of plan.now graphs.now) bytes.now) ≡ None) }
    ensures fits { IfOk result (HasForm (form_of plan.now graphs.now)) }
    ensures ranges { IfOk result FitsState }
    ensures fault { (number place : ℕ) → result ≡ Err (Fault number place)
        → least_fault (faults_of (form_of plan.now graphs.now) bytes.now) ≡ Some (record { number = number; place = place }) }
{
    answer_of(state(alloc, bytes, plan, graphs), bytes.len())
}
