//! A cycle that goes to an action: the action has one more, and its processor's stretch is longer or a new one begins.
ghost use Rattle.std.specs.Prelude.{◌≡◌, ◌+◌, ◌^◌, ◌<◌, IfSome, None, OnOk, Some, ◌++◌, get_or, option_to_list, slice_set};
ghost use Rattle.psy_audit.specs.Traced.{one_cycle};
ghost use Rattle.psy_collect.specs.Keeping.{given, given_by, goes_on, joined, one_more, parted, served_more};

use crate::kept::Kept;
use psy_audit::{Act, Segment};
use psy_base::{Items, Memory};

/// A cycle of a processor goes to an agent's last action.
pub fn give(kept: &mut Kept, processor: u32, cycle: u64, agent: u32) -> Result<(), Memory>
    requires early { cycle < 2 ^ 63 }
    requires few { IfSome (get_or kept.old.doing agent None) (λ act. act.work < 2 ^ 63) }
    ensures { OnOk result (kept.new ≡ given processor cycle agent kept.old) }
{
    match doing(&kept.doing, agent) {
        Some(act) => give_to(kept, processor, cycle, act),
        None => Ok(()),
    }
}

/// The last action of an agent, as it is kept.
pub fn doing(acts: &Items<Option<Act>>, agent: u32) -> Option<Act>
    ensures { result ≡ get_or acts.now agent None }
{
    match acts.get(agent as usize) {
        Some(act) => *act,
        None => None,
    }
}

// It goes to this action, which is its agent's last.
fn give_to(kept: &mut Kept, processor: u32, cycle: u64, act: Act) -> Result<(), Memory>
    requires early { cycle < 2 ^ 63 }
    requires few { act.work < 2 ^ 63 }
    ensures { OnOk result (kept.new ≡ given_by processor cycle (Some act) kept.old) }
{
    put_act(&mut kept.doing, one_more(act));
    serve(kept, processor, cycle, act.agent, act.number)
}

fn one_more(act: Act) -> Act
    requires { act.work < 2 ^ 63 }
    ensures { result ≡ one_more act }
{
    Act {
        agent: act.agent,
        number: act.number,
        point: act.point,
        start: act.start,
        due: act.due,
        work: act.work + 1,
        ending: act.ending,
    }
}

/// Puts an action in its agent's place, where there is one.
pub fn put_act(acts: &mut Items<Option<Act>>, act: Act)
    ensures { acts.new ≡ slice_set acts.old act.agent (Some act) }
{
    match acts.get(act.agent as usize) {
        Some(_) => acts.set(act.agent as usize, Some(act)),
        None => {}
    }
}

// The processor's last stretch goes on, or is over and another one begins.
fn serve(kept: &mut Kept, processor: u32, cycle: u64, agent: u32, number: u64) -> Result<(), Memory>
    requires early { cycle < 2 ^ 63 }
    ensures { OnOk result (kept.new ≡ served_more processor cycle agent number kept.old) }
{
    let last = serving(&kept.serving, processor);
    add_segment(&mut kept.segments, parted(last, cycle, agent, number))?;
    put_segment(
        &mut kept.serving,
        processor,
        joined(last, processor, cycle, agent, number),
    );
    Ok(())
}

fn add_segment(segments: &mut Items<Segment>, segment: Option<Segment>) -> Result<(), Memory>
    ensures { OnOk result (segments.new ≡ segments.old ++ option_to_list segment) }
{
    match segment {
        Some(segment) => Ok(segments.push(segment)?),
        None => Ok(()),
    }
}

/// The last stretch of a processor, as it is kept.
pub fn serving(segments: &Items<Option<Segment>>, processor: u32) -> Option<Segment>
    ensures { result ≡ get_or segments.now processor None }
{
    match segments.get(processor as usize) {
        Some(segment) => *segment,
        None => None,
    }
}

// Puts a stretch in its processor's place, where there is one.
fn put_segment(segments: &mut Items<Option<Segment>>, processor: u32, segment: Segment)
    ensures { segments.new ≡ slice_set segments.old processor (Some segment) }
{
    match segments.get(processor as usize) {
        Some(_) => segments.set(processor as usize, Some(segment)),
        None => {}
    }
}

// The stretch goes on with a cycle that goes to an action.
fn goes_on(segment: Segment, cycle: u64, agent: u32, number: u64) -> bool
    ensures { result ≡ goes_on segment cycle agent number }
{
    segment.past == cycle && (segment.agent == agent && segment.number == number)
}

// The last stretch, where it is over before a cycle that goes to an action.
fn parted(last: Option<Segment>, cycle: u64, agent: u32, number: u64) -> Option<Segment>
    ensures { option_to_list result ≡ parted last cycle agent number }
{
    match last {
        Some(segment) => {
            if goes_on(segment, cycle, agent, number) {
                None
            } else {
                Some(segment)
            }
        }
        None => None,
    }
}

// The stretch that has the cycle that goes to an action: the last one, or another.
fn joined(last: Option<Segment>, processor: u32, cycle: u64, agent: u32, number: u64) -> Segment
    requires { cycle < 2 ^ 63 }
    ensures { result ≡ joined last processor cycle agent number }
{
    match last {
        Some(segment) => {
            if goes_on(segment, cycle, agent, number) {
                longer(segment, cycle)
            } else {
                one_cycle(processor, cycle, agent, number)
            }
        }
        None => one_cycle(processor, cycle, agent, number),
    }
}

fn longer(segment: Segment, cycle: u64) -> Segment
    requires { cycle < 2 ^ 63 }
    ensures { result ≡ record segment { past = cycle + 1 } }
{
    Segment {
        processor: segment.processor,
        first: segment.first,
        past: cycle + 1,
        agent: segment.agent,
        number: segment.number,
    }
}

fn one_cycle(processor: u32, cycle: u64, agent: u32, number: u64) -> Segment
    requires { cycle < 2 ^ 63 }
    ensures { result ≡ one_cycle processor cycle (record { agent = agent; number = number }) }
{
    Segment {
        processor: u64::from(processor),
        first: cycle,
        past: cycle + 1,
        agent,
        number,
    }
}
