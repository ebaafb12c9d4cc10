//! The sends on ways through code.

ghost use Rattle.std.specs.Prelude.{◌≡◌, ◌<◌, ◌≤◌, ℕ, List, false, length, replicate, Some, IfOk, OnOk, slice_get};
ghost use Rattle.std.specs.List.{All, list_any};
ghost use Rattle.psy_base.specs.declared.limits.TheConstants.{STREAMS};
ghost use Rattle.psy_base.specs.declared.ways.SendWay.{SendWay};
ghost use Rattle.psy_code.specs.declared.instr.Instr.TheVariants as instruction;
ghost use Rattle.psy_meaning.specs.CodeWays.{AreCodeNexts, AreCodeSends, HaveMosts, IsCodeWay, IsMostCodeSends, IsPassed};
ghost use Rattle.psy_flow.specs.CodeLists.{HaveMostsTo, sends_at, sends_there};
ghost use Rattle.psy_flow.specs.Listed.{AreSendsUpTo};
ghost use Rattle.psy_flow.specs.Reach.{marked};
ghost use Rattle.psy_flow.specs.Walks.{ArePassed, StaysIn};

use crate::next::no_marks;
use crate::parts::{Part, part_of};
use crate::quests::Quest;
use crate::reach::mark;
use crate::sending::push_some;
use crate::settling::{cell, settle};
use psy_base::{Items, Memory, SendWay, limits};
use psy_code::Instr;
use std::alloc::Global;

// ---- which streams are sent to

fn mark_sent(sent: &mut Items<bool>, part: Part)
    ensures { sent.new ≡ marked sent.old (sends_at part) }
{
    match part {
        Part::Sent { stream, .. } => mark(sent, stream),
        _ => {}
    }
}

fn mark_sent_at(sent: &mut Items<bool>, instrs: &[Instr], place: usize)
    requires { place < length instrs.now }
    ensures { sent.new ≡ marked sent.old (λ stream. sends_there instrs.now stream place) }
{
    mark_sent(sent, part_of(&instrs[place]));
}

// Marks the streams to which instructions at these places send.
fn mark_all_sent(sent: &mut Items<bool>, instrs: &[Instr], places: &[usize])
    requires { All (λ place. place < length instrs.now) places.now }
    ensures { sent.new ≡ marked sent.old (λ stream. list_any (sends_there instrs.now stream) places.now) }
{
    'places: for place in places {
        mark_sent_at(sent, instrs, *place);
    }
}

// ---- how many are sent

// The greatest number of sends to a stream on the ways from a place to a point, or the budget where there is none, both cut at 65,537.
fn most_code_sends(
    instrs: &[Instr],
    from: usize,
    places: &[usize],
    to: u32,
    stream: u32,
    budget: u32,
    row: &mut Items<u64>,
) -> u64
    requires inside { StaysIn instrs.now from }
    requires passed { ArePassed instrs.now from places.now }
    requires count { length row.old ≡ length instrs.now }
    requires goes { (all : List ℕ) × IsCodeWay instrs.now to from all }
    ensures count { length row.new ≡ length instrs.now }
    ensures most { IsMostCodeSends instrs.now from to stream budget result }
{
    if !settle(Quest { to, stream }, instrs, from, places, row) {
        return u64::from(budget).min(limits::SENDS);
    }
    cell(row.as_slice(), Some(from))
        .saturating_sub(1)
        .min(limits::SENDS)
}

// The same, where it is known to which streams the ways from there send.
fn most_if_sent(
    instrs: &[Instr],
    from: usize,
    places: &[usize],
    sent: &[bool],
    to: u32,
    stream: u32,
    budget: u32,
    row: &mut Items<u64>,
) -> u64
    requires inside { StaysIn instrs.now from }
    requires passed { ArePassed instrs.now from places.now }
    requires count { length row.old ≡ length instrs.now }
    requires goes { (all : List ℕ) × IsCodeWay instrs.now to from all }
    requires sent { (streams : ℕ) × (sent.now ≡ marked (replicate streams false) (λ s. list_any (sends_there instrs.now s) places.now)) }
    requires stream { stream < length sent.now }
    ensures count { length row.new ≡ length instrs.now }
    ensures most { IsMostCodeSends instrs.now from to stream budget result }
{
    if !sent[stream as usize] {
        return 0;
    }
    most_code_sends(instrs, from, places, to, stream, budget, row)
}

// The sends to all streams on the ways from a place to a point, behind those of the ways to earlier points.
fn add_code_sends(
    ways: &mut Items<SendWay>,
    instrs: &[Instr],
    from: usize,
    places: &[usize],
    sent: &[bool],
    to: u32,
    budget: u32,
    row: &mut Items<u64>,
) -> Result<(), Memory>
    requires inside { StaysIn instrs.now from }
    requires passed { ArePassed instrs.now from places.now }
    requires count { length row.old ≡ length instrs.now }
    requires goes { (all : List ℕ) × IsCodeWay instrs.now to from all }
    requires sent { (streams : ℕ) × (sent.now ≡ marked (replicate streams false) (λ s. list_any (sends_there instrs.now s) places.now)) }
    requires few { length sent.now ≤ STREAMS }
    ensures count { length row.new ≡ length instrs.now }
    ensures ways { OnOk result (AreSendsUpTo (λ to stream. IsMostCodeSends instrs.now from to stream budget) to 0 ways.old
        → AreSendsUpTo (λ to stream. IsMostCodeSends instrs.now from to stream budget) to (length sent.now) ways.new) }
    ensures judged { OnOk result (HaveMostsTo instrs.now from budget (length sent.now) to) }
{
    'streams: for stream in 0..sent.len() as u32 {
        let most = most_if_sent(instrs, from, places, sent, to, stream, budget, row);
        push_some(ways, SendWay { to, stream, most })?;
    }
    Ok(())
}

/// All sends of the ways through code from a place in order, where these are the points where they end, and each stream is one of the first so
/// many: on the ways to each of these points there is a most for each stream. The places are those that ways from there pass. The only error is
/// want of memory.
pub fn code_sends(
    alloc: Global,
    instrs: &[Instr],
    from: usize,
    places: &[usize],
    nexts: &[u32],
    streams: usize,
    budget: u32,
    row: &mut Items<u64>,
) -> Result<Items<SendWay>, Memory>
    requires inside { StaysIn instrs.now from }
    requires passed { ArePassed instrs.now from places.now }
    requires count { length row.old ≡ length instrs.now }
    requires nexts { AreCodeNexts instrs.now from nexts.now }
    requires named { (place stream after clock : ℕ) → IsPassed instrs.now from place
        → slice_get instrs.now place ≡ Some (instruction.Send stream after clock) → stream < streams }
    requires few { streams ≤ STREAMS }
    ensures count { length row.new ≡ length instrs.now }
    ensures sends { IfOk result (AreCodeSends instrs.now from budget) }
    ensures judged { IfOk result (λ _. HaveMosts instrs.now from budget streams nexts.now) }
{
    let mut sent = no_marks(alloc, streams)?;
    mark_all_sent(&mut sent, instrs, places);
    let mut ways = Items::new(alloc);
    'nexts: for to in nexts {
        add_code_sends(
            &mut ways,
            instrs,
            from,
            places,
            sent.as_slice(),
            *to,
            budget,
            row,
        )?;
    }
    Ok(ways)
}
