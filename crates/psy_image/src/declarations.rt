//! The clocks, the variables and the streams.
ghost use Rattle.std.specs.Prelude.{◌≡◌, ◌+◌, ◌≤◌, IfOk, OnOk, length, option_to_list};
ghost use Rattle.psy_base.specs.declared.limits.TheConstants.{CLOCKS, VARIABLES};
ghost use Rattle.psy_image.specs.Images.{claim_of, clock, clocks, owner_of, seeing, stream, streams, variable, variables};
ghost use Rattle.psy_image.specs.Reading.{Gives, read};

use crate::fault::ReadError;
use crate::fields::{any, below, name, signed, within};
use crate::seen::{Claim, Seen, see};
use psy_base::limits::{CLOCKS, DEPTH, KEEP, STREAMS, VARIABLES};
use psy_base::{Items, Text};
use psy_clock::{Clock, PERIOD};
use psy_tree::{StreamDecl, VarDecl};
use std::alloc::Global;

/// The clocks of an image, with their names.
#[derive(Drop)]
pub struct ClockLists {
    pub names: Items<Text>,
    pub clocks: Items<Clock>,
}

#[tactic(auto, unfolding(crate::specs::Images::clock))]
fn clock<'a>(
    alloc: Global,
    names: &mut Items<Text>,
    clocks: &mut Items<Clock>,
    bytes: &'a [u8],
) -> Result<&'a [u8], ReadError>
    ensures reads { Gives (λ rest. ((names.new, clocks.new), rest.now)) result (read (clock (names.old, clocks.old)) bytes.now) }
    ensures more { OnOk result (length clocks.new ≡ length clocks.old + 1) }
{
    let (name, rest) = name(alloc, names.as_slice(), bytes)?;
    let (period, rest) = within(1, PERIOD, rest)?;
    let (first, rest) = below(period, rest)?;
    names.push(name)?;
    clocks.push(Clock { period, first })?;
    Ok(rest)
}

/// The clocks, with their names.
#[tactic(auto, unfolding(crate::specs::Images::clocks))]
pub fn clocks(alloc: Global, bytes: &[u8]) -> Result<(ClockLists, &[u8]), ReadError>
    ensures reads { Gives (λ x. ((x.0.names, x.0.clocks), x.1.now)) result (read clocks bytes.now) }
    ensures few { IfOk result (λ x. length x.0.clocks ≤ CLOCKS) }
{
    let (count, mut rest) = within(0, CLOCKS as u32, bytes)?;
    let mut names = Items::new(alloc);
    let mut clocks = Items::new(alloc);
    'clocks: for _ in 0..count {
        rest = clock(alloc, &mut names, &mut clocks, rest)?;
    }
    Ok((ClockLists { names, clocks }, rest))
}

/// The owner that a number says: the number is one more, and 0 stands for none.
fn owner_of(number: u32) -> Option<u32>
    ensures { result ≡ owner_of number }
{
    if number == 0 { None } else { Some(number - 1) }
}

/// The agent that owns a variable by that number, if one does, with how many bytes were left at its field.
fn claim_of(number: u32, left: usize) -> Option<Claim>
    ensures { option_to_list result ≡ claim_of number left }
{
    if number == 0 {
        return None;
    }
    Some(Claim {
        agent: number - 1,
        left,
    })
}

#[tactic(auto, unfolding(crate::specs::Images::variable))]
fn variable<'a>(
    alloc: Global,
    clocks: u32,
    seen: &mut Seen,
    list: &mut Items<VarDecl>,
    bytes: &'a [u8],
) -> Result<&'a [u8], ReadError>
    ensures reads { Gives (λ rest. ((seen.new, list.new), rest.now)) result (read (variable clocks (seen.old, list.old)) bytes.now) }
    ensures more { OnOk result (length list.new ≡ length list.old + 1) }
{
    let (name, rest) = name(alloc, seen.names.as_slice(), bytes)?;
    let left = rest.len();
    let (owner, rest) = any(rest)?;
    let (clock, rest) = below(clocks, rest)?;
    let (init, rest) = signed(rest)?;
    let (depth, rest) = within(1, DEPTH, rest)?;
    see(alloc, seen, &name, claim_of(owner, left))?;
    list.push(VarDecl {
        name,
        owner: owner_of(owner),
        clock,
        init,
        depth,
    })?;
    Ok(rest)
}

/// The variables.
#[tactic(auto, unfolding(crate::specs::Images::variables))]
pub fn variables<'a>(
    alloc: Global,
    clocks: u32,
    seen: &mut Seen,
    bytes: &'a [u8],
) -> Result<(Items<VarDecl>, &'a [u8]), ReadError>
    ensures reads { Gives (λ x. ((seen.new, x.0), x.1.now)) result (read (variables clocks seen.old) bytes.now) }
    ensures few { IfOk result (λ x. length x.0 ≤ VARIABLES) }
{
    let (count, mut rest) = within(0, VARIABLES as u32, bytes)?;
    let mut list = Items::new(alloc);
    'variables: for _ in 0..count {
        rest = variable(alloc, clocks, seen, &mut list, rest)?;
    }
    Ok((list, rest))
}

#[tactic(auto, unfolding(crate::specs::Images::stream))]
fn stream<'a>(
    alloc: Global,
    clocks: u32,
    seen: &mut Seen,
    list: &mut Items<StreamDecl>,
    bytes: &'a [u8],
) -> Result<&'a [u8], ReadError>
    ensures { Gives (λ rest. ((seen.new, list.new), rest.now)) result (read (stream clocks (seen.old, list.old)) bytes.now) }
{
    let (name, rest) = name(alloc, seen.names.as_slice(), bytes)?;
    let left = rest.len();
    let (receiver, rest) = any(rest)?;
    let (keep, rest) = within(1, KEEP, rest)?;
    let (clock, rest) = below(clocks, rest)?;
    see(
        alloc,
        seen,
        &name,
        Some(Claim {
            agent: receiver,
            left,
        }),
    )?;
    list.push(StreamDecl {
        name,
        receiver,
        keep,
        clock,
    })?;
    Ok(rest)
}

/// The streams.
#[tactic(auto, unfolding(crate::specs::Images::streams))]
pub fn streams<'a>(
    alloc: Global,
    clocks: u32,
    seen: &mut Seen,
    bytes: &'a [u8],
) -> Result<(Items<StreamDecl>, &'a [u8]), ReadError>
    ensures { Gives (λ x. ((seen.new, x.0), x.1.now)) result (read (streams clocks seen.old) bytes.now) }
{
    let (count, mut rest) = within(0, STREAMS as u32, bytes)?;
    let mut list = Items::new(alloc);
    'streams: for _ in 0..count {
        rest = stream(alloc, clocks, seen, &mut list, rest)?;
    }
    Ok((list, rest))
}
