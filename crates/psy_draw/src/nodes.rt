//! The nodes and the steps of an agent's graph.
ghost use Rattle.std.specs.Prelude.{◌≡◌, ◌≤◌, ◌++◌, IfOk, OnOk, length};
ghost use Rattle.std.specs.List.{flat_map, prefix_len};
ghost use Rattle.std.specs.Option.{option_copied};
ghost use Rattle.psy_draw.specs.Folded.{greatest_worst, inside, is_inside, node_at, node_of, nodes_at, nodes_of, phase_to, step_between, step_of, steps_from};

use crate::node::{Node, Step};
use psy_log::Note;
use std::alloc::{AllocError, Global};

/// Of the notes behind an agent's first those of its graph.
pub fn inside<'n, 'a>(notes: &'n [Note<'a>]) -> &'n [Note<'a>]
    ensures { result.now ≡ inside notes.now }
{
    &notes[..inside_len(notes)]
}

// How many notes stand before the next agent's first.
fn inside_len(notes: &[Note]) -> usize
    ensures count { result ≡ prefix_len is_inside notes.now }
    ensures within { result ≤ length notes.now }
{
    notes.iter().take_while(|note| is_inside(note)).count()
}

fn is_inside(note: &Note) -> bool
    ensures { result ≡ is_inside note.now }
{
    !matches!(note, Note::AgentGraph { .. })
}

/// The nodes of a graph, by number.
pub fn nodes_of(alloc: Global, notes: &[Note]) -> Result<Vec<Node>, AllocError>
    ensures { IfOk result (λ nodes. nodes.items ≡ nodes_of notes.now) }
{
    let mut nodes = Vec::new(alloc);
    for note in notes {
        add_node(&mut nodes, note)?;
    }
    Ok(nodes)
}

fn add_node(nodes: &mut Vec<Node>, note: &Note) -> Result<(), AllocError>
    ensures { OnOk result (nodes.new.items ≡ nodes.old.items ++ node_of note.now) }
{
    match *note {
        Note::Node {
            point,
            phase,
            budget,
            worst,
            ..
        } => Ok(nodes.push(Node {
            point,
            phase,
            budget,
            worst,
        })?),
        _ => Ok(()),
    }
}

/// The nodes of a point.
pub fn nodes_at(alloc: Global, nodes: &[Node], point: usize) -> Result<Vec<Node>, AllocError>
    ensures { IfOk result (λ found. found.items ≡ nodes_at point nodes.now) }
{
    let mut found = Vec::new(alloc);
    for node in nodes {
        add_node_at(&mut found, node, point)?;
    }
    Ok(found)
}

fn add_node_at(found: &mut Vec<Node>, node: &Node, point: usize) -> Result<(), AllocError>
    ensures { OnOk result (found.new.items ≡ found.old.items ++ node_at point node.now) }
{
    if node.point as usize == point {
        found.push(*node)?;
    }
    Ok(())
}

/// The greatest worst cost of some nodes.
pub fn greatest_worst(nodes: &[Node]) -> u64
    ensures { result ≡ greatest_worst nodes.now }
{
    let mut most = 0;
    for node in nodes {
        most = node.worst.max(most);
    }
    most
}

/// The steps from a point.
pub fn steps_from(
    alloc: Global,
    nodes: &[Node],
    notes: &[Note],
    point: usize,
) -> Result<Vec<Step>, AllocError>
    ensures { IfOk result (λ steps. steps.items ≡ steps_from nodes.now notes.now point) }
{
    let mut steps = Vec::new(alloc);
    for note in notes {
        add_step(&mut steps, nodes, note, point)?;
    }
    Ok(steps)
}

fn add_step(
    steps: &mut Vec<Step>,
    nodes: &[Node],
    note: &Note,
    point: usize,
) -> Result<(), AllocError>
    ensures { OnOk result (steps.new.items ≡ steps.old.items ++ step_of nodes.now point note.now) }
{
    match *note {
        Note::EdgeOf { from, to, .. } => add_between(
            steps,
            nodes.get(from as usize),
            nodes.get(to as usize),
            point,
        ),
        _ => Ok(()),
    }
}

// Adds the step from one node to another, where it is one from the point.
fn add_between(
    steps: &mut Vec<Step>,
    from: Option<&Node>,
    to: Option<&Node>,
    point: usize,
) -> Result<(), AllocError>
    ensures { OnOk result (steps.new.items ≡ steps.old.items ++ step_between point (option_copied from.entry) (option_copied to.entry)) }
{
    let (Some(start), Some(end)) = (from, to) else {
        return Ok(());
    };
    if start.point as usize != point {
        return Ok(());
    }
    Ok(steps.push(Step {
        to: end.point,
        phase: start.phase,
    })?)
}

/// The dates of the cycle at which actions start by steps to a point.
pub fn phases_to(alloc: Global, steps: &[Step], point: usize) -> Result<Vec<u64>, AllocError>
    ensures { IfOk result (λ phases. phases.items ≡ flat_map (phase_to point) steps.now) }
{
    let mut phases = Vec::new(alloc);
    for step in steps {
        add_phase(&mut phases, step, point)?;
    }
    Ok(phases)
}

fn add_phase(phases: &mut Vec<u64>, step: &Step, point: usize) -> Result<(), AllocError>
    ensures { OnOk result (phases.new.items ≡ phases.old.items ++ phase_to point step.now) }
{
    if step.to as usize == point {
        phases.push(step.phase)?;
    }
    Ok(())
}
