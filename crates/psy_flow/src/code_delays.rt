//! The delays of the sends on ways through code.

ghost use Rattle.std.specs.Prelude.{◌≡◌, ◌<◌, length};
ghost use Rattle.std.specs.List.{All};
ghost use Rattle.psy_flow.specs.CodeLists.{HasDelayAmong, HasDelayThere, HasPartDelay, IsRaisedTo};

use crate::bits::has_bit;
use crate::delays::delay;
use crate::parts::{Part, part_of};
use psy_base::Items;
use psy_code::Instr;
use psy_tree::Unit;

// Raises the number of a stream, if there is one of it.
fn raise_to(delays: &mut Items<u64>, stream: u32, delay: u64)
    ensures { IsRaisedTo (λ s n. (stream ≡ s) × (n ≡ delay)) delays.old delays.new }
{
    let stream = stream as usize;
    if stream < delays.len() && delays.as_slice()[stream] < delay {
        delays.set(stream, delay);
    }
}

fn raise_by_part(delays: &mut Items<u64>, unit: &Unit, part: Part)
    ensures { IsRaisedTo (HasPartDelay unit.now part) delays.old delays.new }
{
    match part {
        Part::Sent {
            stream,
            after,
            clock,
        } => raise_to(delays, stream, delay(unit, after, clock)),
        _ => {}
    }
}

// The same by the instruction at a place, where a way from there ends.
fn raise_at(delays: &mut Items<u64>, unit: &Unit, instrs: &[Instr], endings: &[u64], place: usize)
    requires place { place < length instrs.now }
    requires count { length endings.now ≡ length instrs.now }
    ensures { IsRaisedTo (HasDelayThere unit.now instrs.now endings.now place) delays.old delays.new }
{
    if has_bit(endings[place], 0) {
        raise_by_part(delays, unit, part_of(&instrs[place]));
    }
}

/// By stream, the greater of what is there and of the delays of the sends at these places, where ways from there end.
pub fn raise_among(
    delays: &mut Items<u64>,
    unit: &Unit,
    instrs: &[Instr],
    endings: &[u64],
    places: &[usize],
)
    requires inside { All (λ place. place < length instrs.now) places.now }
    requires count { length endings.now ≡ length instrs.now }
    ensures { IsRaisedTo (HasDelayAmong unit.now instrs.now endings.now places.now) delays.old delays.new }
{
    'places: for place in places {
        raise_at(delays, unit, instrs, endings, *place);
    }
}
