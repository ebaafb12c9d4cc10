//! The text of the report.
ghost use Rattle.std.specs.Prelude.{◌≡◌, ◌++◌, ◌≤◌, ◌<◌, ◌^◌, IfErr, IfOk, OnOk, flat_map, get_or, length};
ghost use Rattle.std.specs.List.{All, range_with_len};
ghost use Rattle.psy_base.specs.declared.limits.TheConstants.{PROCESSORS};
ghost use Rattle.psy_meaning.specs.Units.{IsBare, IsOfText};
ghost use Rattle.psy_plan.specs.Courses.{Stops};
ghost use Rattle.psy_report.specs.Measured.{IsUnmeasured};
ghost use Rattle.psy_report.specs.Reports.{IsReport, queue_text, report_text, ring_text, row_text, sign, tight_lines, tight_text};
ghost use Rattle.psy_report.specs.Tightness.{AreListed};

use crate::agents::{add_agent, on};
use crate::measures::{Known, measure};
use crate::part::{Load, add_parts};
use crate::tight::{demand, tightest_of};
use crate::warnings::{add_costs, add_depth, add_input, add_stream};
use psy_feed::{stream_name, variable_name};
use psy_page::{Piece, fill};
use psy_plan::Stop;
use psy_tree::Unit;
use std::alloc::{AllocError, Global};

/// The tightest length of a processor, with its supply, its demand, what is left, and which processor that is.
pub const TIGHTEST: &[u8] = b"tightest $ supply $ demand $ left $$$\n";
/// What stands before what is missing.
pub const MINUS: &[u8] = b"-";
/// An agent's part of the demand over that length.
pub const PART: &[u8] = b"part $ $\n";
/// The places of a variable's ring.
pub const RING: &[u8] = b"ring $ $\n";
/// The places of a stream's queue.
pub const QUEUE: &[u8] = b"queue $ $\n";

/// What is told by number: of each agent, of the rings and queues, and what looks like a slip.
#[derive(Clone, Copy)]
pub enum Row {
    Agent,
    Ring,
    Queue,
    Costs,
    Depth,
    Stream,
    Input,
}

/// Reports on a program, up to a date: its agents, for each processor the length over which the least is left, its buffers, and warnings. It needn't be
/// a program that its processors can run. A refusal is that of a limit, as psyc tells it; the only other error is want of memory.
pub fn report(alloc: Global, unit: &Unit, until: u32) -> Result<Vec<u8>, Stop>
    requires text { IsOfText unit.now }
    ensures report { IfOk result (λ text. IsReport unit.now until text.items) }
    ensures refused { IfErr result (Stops (IsUnmeasured unit.now until)) }
{
    let measures = measure(alloc, unit, until)?;
    let tightest = tightest_of(alloc, unit, measures.lists.as_slice(), until)?;
    let known = Known {
        unit,
        measures: &measures,
    };
    match text_of(alloc, known, tightest.as_slice()) {
        Ok(text) => Ok(text),
        Err(_) => Err(Stop::Memory),
    }
}

fn text_of(alloc: Global, known: Known, tightest: &[u32]) -> Result<Vec<u8>, AllocError>
    requires bare { IsBare known.unit.now }
    requires rates { All (λ line. line.rate ≤ 2 ^ 40) known.measures.now.lines }
    requires listed { AreListed known.unit.now known.measures.now.lists }
    requires few { length tightest.now ≤ PROCESSORS }
    ensures { IfOk result (λ text. text.items ≡ report_text known.entry.unit.now known.entry.measures.now tightest.now) }
{
    let agents = count(known.unit.agents.len());
    let variables = count(known.unit.variables.len());
    let streams = count(known.unit.streams.len());
    let mut out = Vec::new(alloc);
    add_rows(&mut out, known, Row::Agent, agents)?;
    add_tightest(&mut out, known, tightest)?;
    add_rows(&mut out, known, Row::Ring, variables)?;
    add_rows(&mut out, known, Row::Queue, streams)?;
    add_rows(&mut out, known, Row::Costs, agents)?;
    add_rows(&mut out, known, Row::Depth, variables)?;
    add_rows(&mut out, known, Row::Stream, streams)?;
    add_rows(&mut out, known, Row::Input, variables)?;
    Ok(out)
}

// A number of parts, which is no great one.
fn count(parts: usize) -> u32
    requires { parts < 2 ^ 32 }
    ensures { result ≡ parts }
{
    parts as u32
}

// What is told of the first so many.
fn add_rows(out: &mut Vec<u8>, known: Known, row: Row, count: u32) -> Result<(), AllocError>
    requires bare { IsBare known.unit.now }
    requires rates { All (λ line. line.rate ≤ 2 ^ 40) known.measures.now.lines }
    ensures { OnOk result (out.new.items ≡ out.old.items
        ++ flat_map (row_text known.entry.unit.now known.entry.measures.now row) (range_with_len 0 count)) }
{
    'numbers: for number in 0..count {
        add_row(out, known, row, number)?;
    }
    Ok(())
}

fn add_row(out: &mut Vec<u8>, known: Known, row: Row, number: u32) -> Result<(), AllocError>
    requires bare { IsBare known.unit.now }
    requires rates { All (λ line. line.rate ≤ 2 ^ 40) known.measures.now.lines }
    ensures { OnOk result (out.new.items ≡ out.old.items ++ row_text known.entry.unit.now known.entry.measures.now row number) }
{
    let unit = known.unit;
    match row {
        Row::Agent => add_agent(out, known, number),
        Row::Ring => add_ring(out, known, number),
        Row::Queue => add_queue(out, known, number),
        Row::Costs => add_costs(out, known, number),
        Row::Depth => add_depth(out, unit, number),
        Row::Stream => add_stream(out, unit, number),
        Row::Input => add_input(out, unit, number),
    }
}

fn add_ring(out: &mut Vec<u8>, known: Known, variable: u32) -> Result<(), AllocError>
    ensures { OnOk result (out.new.items ≡ out.old.items ++ ring_text known.entry.unit.now known.entry.measures.now variable) }
{
    let name = Piece::Raw(variable_name(known.unit, variable));
    let places = places(known.measures.sizes.rings.as_slice(), variable);
    fill(out, RING, &[name, Piece::Number(places)])
}

fn add_queue(out: &mut Vec<u8>, known: Known, stream: u32) -> Result<(), AllocError>
    ensures { OnOk result (out.new.items ≡ out.old.items ++ queue_text known.entry.unit.now known.entry.measures.now stream) }
{
    let name = Piece::Raw(stream_name(known.unit, stream));
    let places = places(known.measures.sizes.queues.as_slice(), stream);
    fill(out, QUEUE, &[name, Piece::Number(places)])
}

// The places of the buffer of this number.
fn places(sizes: &[u32], number: u32) -> u32
    ensures { result ≡ get_or sizes.now number 0 }
{
    match sizes.get(number as usize) {
        Some(size) => *size,
        None => 0,
    }
}

// For each processor, over which length the least is left, and the parts of its agents in the demand.
fn add_tightest(out: &mut Vec<u8>, known: Known, tightest: &[u32]) -> Result<(), AllocError>
    requires bare { IsBare known.unit.now }
    requires listed { AreListed known.unit.now known.measures.now.lists }
    requires few { length tightest.now ≤ PROCESSORS }
    ensures { OnOk result (out.new.items ≡ out.old.items
        ++ flat_map (tight_text known.entry.unit.now known.entry.measures.now tightest.now) (range_with_len 0 (length tightest.now))) }
{
    'processors: for (processor, within) in tightest.iter().enumerate() {
        add_tight(out, known, *within, processor as u32)?;
    }
    Ok(())
}

// The length of a processor, and the parts of its agents.
fn add_tight(out: &mut Vec<u8>, known: Known, within: u32, processor: u32) -> Result<(), AllocError>
    requires bare { IsBare known.unit.now }
    requires listed { AreListed known.unit.now known.measures.now.lists }
    ensures { OnOk result (out.new.items ≡ out.old.items ++ tight_lines known.entry.unit.now known.entry.measures.now processor within) }
{
    let supply = u64::from(known.unit.quantum) * u64::from(within);
    let demand = demand(
        known.unit,
        known.measures.lists.as_slice(),
        processor,
        within,
    );
    let pieces = [
        Piece::Number(within),
        Piece::Long(supply),
        Piece::Long(demand),
        Piece::Raw(sign(supply, demand)),
        Piece::Long(supply.abs_diff(demand)),
        on(processor),
    ];
    fill(out, TIGHTEST, &pieces)?;
    let processor = u64::from(processor);
    add_parts(out, PART, known, Load { within, processor })
}

// What stands before the difference of a supply and a demand: a minus where some is missing.
fn sign(supply: u64, demand: u64) -> &'static [u8]
    ensures { result.now ≡ sign supply demand }
{
    if demand <= supply { b"" } else { MINUS }
}
