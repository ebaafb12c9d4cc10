//! What is still to be told when all cycles were done: each agent's last action, and each processor's last stretch.
ghost use Rattle.std.specs.Prelude.{◌≡◌, ◌^◌, ◌<◌, ◌++◌, None, OnOk, get_or, length, option_to_list};
ghost use Rattle.std.specs.List.{flat_map, range_with_len};
ghost use Rattle.psy_collect.specs.Keeping.{end_in, ending_of};

use crate::dates::ended;
use crate::stretch::{doing, serving};
use psy_audit::{Act, Ending, Segment};
use psy_base::{Items, Memory};
use psy_dates::{Phase, Seat};

/// Each agent's last action is told, with how it ended by its seat.
#[tactic(auto, using(crate::proofs::Rows::added))]
pub fn end_acts(
    acts: &mut Items<Act>,
    last: &Items<Option<Act>>,
    seats: &[Seat],
) -> Result<(), Memory>
    requires { length seats.now < 2 ^ 32 }
    ensures { OnOk result (acts.new ≡ acts.old ++ flat_map (end_in last.now seats.now) (range_with_len 0 (length seats.now))) }
{
    'agents: for agent in 0..seats.len() as u32 {
        end_act(acts, last, seats, agent)?;
    }
    Ok(())
}

fn end_act(
    acts: &mut Items<Act>,
    last: &Items<Option<Act>>,
    seats: &[Seat],
    agent: u32,
) -> Result<(), Memory>
    requires { agent < length seats.now }
    ensures { OnOk result (acts.new ≡ acts.old ++ end_in last.now seats.now agent) }
{
    let ending = ending_of(&seats[agent as usize]);
    match doing(last, agent) {
        Some(act) => Ok(acts.push(ended(act, ending))?),
        None => Ok(()),
    }
}

// How the action of a seat ended.
fn ending_of(seat: &Seat) -> Ending
    ensures { result ≡ ending_of seat.now.phase seat.now.end }
{
    match seat.phase {
        Phase::Waiting => Ending::Unfinished,
        Phase::Acting => Ending::Unfinished,
        Phase::Ended => Ending::At(seat.end),
        Phase::Stopped => Ending::Stopped,
        Phase::Silent => Ending::Stopped,
    }
}

/// Each processor's last stretch is told.
#[tactic(auto, using(crate::proofs::Rows::added))]
pub fn end_segments(
    segments: &mut Items<Segment>,
    last: &Items<Option<Segment>>,
    processors: u32,
) -> Result<(), Memory>
    ensures { OnOk result (segments.new ≡ segments.old
        ++ flat_map (λ processor. option_to_list (get_or last.now processor None)) (range_with_len 0 processors)) }
{
    'processors: for processor in 0..processors {
        end_segment(segments, last, processor)?;
    }
    Ok(())
}

fn end_segment(
    segments: &mut Items<Segment>,
    last: &Items<Option<Segment>>,
    processor: u32,
) -> Result<(), Memory>
    ensures { OnOk result (segments.new ≡ segments.old ++ option_to_list (get_or last.now processor None)) }
{
    match serving(last, processor) {
        Some(segment) => Ok(segments.push(segment)?),
        None => Ok(()),
    }
}
