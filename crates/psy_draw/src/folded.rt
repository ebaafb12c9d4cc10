//! The text of graphs that are folded by point.
ghost use Rattle.std.specs.Prelude.{◌≡◌, ◌∷◌, ◌++◌, [], IfOk, OnOk, get_or, length, map};
ghost use Rattle.std.specs.List.{flat_map, range_with_len};
ghost use Rattle.psy_draw.specs.Folded.{arrow_by, arrow_text, arrows_text, box_of, box_text, cluster_text, color, costs_text, first_lines, folded_clusters};
ghost use Rattle.psy_draw.specs.Homes.{home_at, housed_of};
ghost use Rattle.psy_draw.specs.Folded.{folded_of, more_lines, more_phase, more_phases, point_text, quoted};

use crate::graph::{CLUSTER, CLUSTER_END, GRAPHS, GRAPHS_END};
use crate::home::{Home, ON, home_at};
use crate::node::{Node, Step};
use crate::nodes::{greatest_worst, inside, nodes_at, nodes_of, phases_to, steps_from};
use psy_base::{Items, Text};
use psy_log::Note;
use psy_page::Piece::{Labelled, Long, Number, Raw};
use psy_page::fill;
use std::alloc::{AllocError, Global};

/// The dates of a cycle that an arrow tells behind the first, at most.
pub const MOST_PHASES: usize = 7;

/// The box of a point of an agent, up to its line in the program's text
pub const POINT: &[u8] = b"    \"$ $\" [label=\"point $\\n";

/// What stands behind that line: its worst cost, its budget, and its color, where it has one
pub const COSTS: &[u8] = b"\\nworst $ of $\"$];\n";

/// The color of a box
pub const RED: &[u8] = b", color=red";

/// An arrow from a point of an agent to another, up to the first date of the cycle at which it starts
pub const ARROW: &[u8] = b"    \"$ $\" -> \"$ $\" [label=\"at $";

/// A further date of an arrow
pub const PHASE: &[u8] = b", $";

/// The dates that aren't told
pub const MORE_PHASES: &[u8] = b", ..";

/// An arrow ends.
pub const ARROW_END: &[u8] = b"\"];\n";

/// The graphs that the notes tell, folded by point, in the language DOT: a cluster for each agent, with its processor, where one is told; a box for each
/// point at which its actions may start, with its line in the program's text, which is red where an action may cost more than its budget; and an arrow to
/// each point that may follow. The lines are told agent by agent and point by point, of less than 2 ^ 32 points each. The only error is want of memory.
pub fn dot_by_point(
    alloc: Global,
    notes: &[Note],
    homes: &[Home],
    lines: &[Items<Text>],
) -> Result<Vec<u8>, AllocError>
    ensures { IfOk result (λ text. text.items ≡ folded_of (map housed_of homes.now) lines.now notes.now) }
{
    let mut out = Vec::from_slice(alloc, GRAPHS)?;
    add_clusters(alloc, &mut out, notes, homes, lines)?;
    out.extend_from_slice(GRAPHS_END)?;
    Ok(out)
}

fn add_clusters(
    alloc: Global,
    out: &mut Vec<u8>,
    notes: &[Note],
    homes: &[Home],
    lines: &[Items<Text>],
) -> Result<(), AllocError>
    ensures { OnOk result (out.new.items ≡ out.old.items ++ folded_clusters (map housed_of homes.now) lines.now notes.now) }
{
    let mut left = lines;
    'each: for (index, note) in notes.iter().enumerate() {
        left = add_cluster_of(alloc, out, *note, &notes[index + 1..], homes, left)?;
    }
    Ok(())
}

// Adds the cluster of the agent whose graph a note begins, where it does; gives the lines of the agents behind it.
fn add_cluster_of<'l>(
    alloc: Global,
    out: &mut Vec<u8>,
    note: Note,
    behind: &[Note],
    homes: &[Home],
    lines: &'l [Items<Text>],
) -> Result<&'l [Items<Text>], AllocError>
    ensures { IfOk result (λ more. out.new.items ++ folded_clusters (map housed_of homes.now) more.now behind.now
        ≡ out.old.items ++ folded_clusters (map housed_of homes.now) lines.now (note.entry ∷ behind.now)) }
{
    match note {
        Note::AgentGraph { agent, .. } => {
            let processor = home_at(homes, agent);
            add_cluster(
                alloc,
                out,
                agent,
                processor,
                first_lines(lines),
                inside(behind),
            )?;
            Ok(more_lines(lines))
        }
        _ => Ok(lines),
    }
}

fn first_lines(lines: &[Items<Text>]) -> &[Text]
    ensures { result.now ≡ first_lines lines.now }
{
    match lines.first() {
        Some(first) => first.as_slice(),
        None => &[],
    }
}

fn more_lines(lines: &[Items<Text>]) -> &[Items<Text>]
    ensures { result.now ≡ more_lines lines.now }
{
    match lines.split_first() {
        Some((_, more)) => more,
        None => lines,
    }
}

fn add_cluster(
    alloc: Global,
    out: &mut Vec<u8>,
    agent: &[u8],
    processor: Option<u32>,
    lines: &[Text],
    notes: &[Note],
) -> Result<(), AllocError>
    ensures { OnOk result (out.new.items ≡ out.old.items ++ cluster_text agent.now processor lines.now notes.now) }
{
    let nodes = nodes_of(alloc, notes)?;
    fill(
        out,
        CLUSTER,
        &[Raw(agent), Raw(agent), Labelled(ON, processor)],
    )?;
    add_points(alloc, out, agent, lines, nodes.as_slice())?;
    add_arrows(alloc, out, agent, nodes.as_slice(), notes, lines.len())?;
    out.extend_from_slice(CLUSTER_END)?;
    Ok(())
}

// Adds the boxes of the points at which actions start.
fn add_points(
    alloc: Global,
    out: &mut Vec<u8>,
    agent: &[u8],
    lines: &[Text],
    nodes: &[Node],
) -> Result<(), AllocError>
    ensures { OnOk result (out.new.items ≡ out.old.items ++ flat_map (point_text agent.now lines.now nodes.now) (range_with_len 0 (length lines.now))) }
{
    'points: for point in 0..lines.len() {
        let nodes = nodes_at(alloc, nodes, point)?;
        add_box_of(out, agent, point, line_of(lines, point), nodes.as_slice())?;
    }
    Ok(())
}

fn line_of(lines: &[Text], point: usize) -> &[u8]
    ensures { result.now ≡ get_or lines.now point [] }
{
    match lines.get(point) {
        Some(line) => line.bytes(),
        None => b"",
    }
}

fn add_box_of(
    out: &mut Vec<u8>,
    agent: &[u8],
    point: usize,
    line: &[u8],
    nodes: &[Node],
) -> Result<(), AllocError>
    ensures { OnOk result (out.new.items ≡ out.old.items ++ box_of agent.now point line.now nodes.now) }
{
    match nodes.first() {
        Some(node) => add_box(out, agent, point, line, greatest_worst(nodes), node.budget),
        None => Ok(()),
    }
}

fn add_box(
    out: &mut Vec<u8>,
    agent: &[u8],
    point: usize,
    line: &[u8],
    worst: u64,
    budget: u32,
) -> Result<(), AllocError>
    ensures { OnOk result (out.new.items ≡ out.old.items ++ box_text agent.now point line.now worst budget) }
{
    fill(
        out,
        POINT,
        &[Raw(agent), Long(point as u64), Long(point as u64)],
    )?;
    add_quoted(out, line)?;
    add_costs(out, worst, budget)
}

// Adds the rest of a box.
fn add_costs(out: &mut Vec<u8>, worst: u64, budget: u32) -> Result<(), AllocError>
    ensures { OnOk result (out.new.items ≡ out.old.items ++ costs_text worst budget) }
{
    fill(
        out,
        COSTS,
        &[Long(worst), Number(budget), Raw(color(worst, budget))],
    )
}

// What makes a box red.
fn color(worst: u64, budget: u32) -> &'static [u8]
    ensures { result.now ≡ color worst budget }
{
    if worst <= u64::from(budget) { b"" } else { RED }
}

fn add_quoted(out: &mut Vec<u8>, text: &[u8]) -> Result<(), AllocError>
    ensures { OnOk result (out.new.items ≡ out.old.items ++ flat_map quoted text.now) }
{
    for byte in text {
        add_quoted_byte(out, *byte)?;
    }
    Ok(())
}

fn add_quoted_byte(out: &mut Vec<u8>, byte: u8) -> Result<(), AllocError>
    ensures { OnOk result (out.new.items ≡ out.old.items ++ quoted byte) }
{
    match byte {
        b'"' => out.extend_from_slice(b"\\\""),
        b'\\' => out.extend_from_slice(b"\\\\"),
        b'&' => out.extend_from_slice(b"&amp;"),
        _ => out.extend_from_slice(&[byte]),
    }
}

fn add_arrows(
    alloc: Global,
    out: &mut Vec<u8>,
    agent: &[u8],
    nodes: &[Node],
    notes: &[Note],
    count: usize,
) -> Result<(), AllocError>
    ensures { OnOk result (out.new.items ≡ out.old.items ++ flat_map (arrows_text agent.now nodes.now notes.now count) (range_with_len 0 count)) }
{
    'points: for from in 0..count {
        add_arrows_from(alloc, out, agent, nodes, notes, count, from)?;
    }
    Ok(())
}

// Adds the arrows from a point.
fn add_arrows_from(
    alloc: Global,
    out: &mut Vec<u8>,
    agent: &[u8],
    nodes: &[Node],
    notes: &[Note],
    count: usize,
    from: usize,
) -> Result<(), AllocError>
    ensures { OnOk result (out.new.items ≡ out.old.items ++ arrows_text agent.now nodes.now notes.now count from) }
{
    let steps = steps_from(alloc, nodes, notes, from)?;
    'points: for to in 0..count {
        add_arrow(alloc, out, agent, steps.as_slice(), from, to)?;
    }
    Ok(())
}

// Adds the arrow from one point to another, where a step leads there.
fn add_arrow(
    alloc: Global,
    out: &mut Vec<u8>,
    agent: &[u8],
    steps: &[Step],
    from: usize,
    to: usize,
) -> Result<(), AllocError>
    ensures { OnOk result (out.new.items ≡ out.old.items ++ arrow_text agent.now from steps.now to) }
{
    let phases = phases_to(alloc, steps, to)?;
    match phases.as_slice().split_first() {
        Some((first, more)) => add_arrow_at(out, agent, from, to, *first, more),
        None => Ok(()),
    }
}

// Adds an arrow, with the first date of the cycle at which actions start that lead there, and with the others.
fn add_arrow_at(
    out: &mut Vec<u8>,
    agent: &[u8],
    from: usize,
    to: usize,
    first: u64,
    more: &[u64],
) -> Result<(), AllocError>
    ensures { OnOk result (out.new.items ≡ out.old.items ++ arrow_by agent.now from to (first ∷ more.now)) }
{
    let from = Long(from as u64);
    let to = Long(to as u64);
    fill(out, ARROW, &[Raw(agent), from, Raw(agent), to, Long(first)])?;
    add_phases(out, more)?;
    out.extend_from_slice(ARROW_END)?;
    Ok(())
}

// Adds the dates behind the first.
fn add_phases(out: &mut Vec<u8>, more: &[u64]) -> Result<(), AllocError>
    ensures { OnOk result (out.new.items ≡ out.old.items ++ more_phases more.now) }
{
    if more.len() <= MOST_PHASES {
        return add_each_phase(out, more);
    }
    add_each_phase(out, &more[..MOST_PHASES])?;
    out.extend_from_slice(MORE_PHASES)
}

fn add_each_phase(out: &mut Vec<u8>, phases: &[u64]) -> Result<(), AllocError>
    ensures { OnOk result (out.new.items ≡ out.old.items ++ flat_map more_phase phases.now) }
{
    for phase in phases {
        fill(out, PHASE, &[Long(*phase)])?;
    }
    Ok(())
}
