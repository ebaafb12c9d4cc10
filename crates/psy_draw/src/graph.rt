//! The text of the graphs.
ghost use Rattle.std.specs.Prelude.{◌≡◌, [], ◌∷◌, ◌++◌, List, IfOk, OnOk, option_map, unwrap_or};
ghost use Rattle.psy_log.specs.declared.note.Note.{Note};
ghost use Rattle.psy_draw.specs.Graph.{closing, clusters, dot_of};

use crate::home::ON;
use psy_log::Note;
use psy_page::Piece::{Labelled, Long, Number, Raw};
use psy_page::fill;
use std::alloc::{AllocError, Global};

/// Graphs begin.
pub const GRAPHS: &[u8] = b"digraph psyc {
  rankdir=LR;
  node [shape=box];
";

/// Graphs end.
pub const GRAPHS_END: &[u8] = b"}\n";

/// The cluster of an agent begins: it has the agent's name, twice, and its processor, where one is told.
pub const CLUSTER: &[u8] = b"  subgraph \"cluster_$\" {\n    label=\"$$\";\n";

/// A cluster ends.
pub const CLUSTER_END: &[u8] = b"  }\n";

/// A node of an agent: its number, twice, its point and its phase; its worst cost and its budget; how many ticks behind its start it is due
pub const NODE: &[u8] = b"    \"$ $\" [label=\"$: point $ at $\\nworst $ of $\\ndue in $\"];\n";

/// An edge from a node of an agent to another, and how many ticks lie between their starts
pub const EDGE: &[u8] = b"    \"$ $\" -> \"$ $\" [label=\"$\"];\n";

/// The graphs that the notes tell, in the language DOT: a cluster for each agent, a box for each node, an arrow for each edge.
/// The only error is want of memory.
pub fn dot(alloc: Global, notes: &[Note]) -> Result<Vec<u8>, AllocError>
    ensures { IfOk result (λ text. text.items ≡ dot_of notes.now) }
{
    let mut out = Vec::from_slice(alloc, GRAPHS)?;
    let mut agent = None;
    for note in notes {
        agent = add_note(&mut out, agent, *note)?;
    }
    add_closing(&mut out, agent)?;
    out.extend_from_slice(GRAPHS_END)?;
    Ok(out)
}

// Adds what a note draws within the cluster of an agent, and gives the agent whose cluster is next.
fn add_note<'a>(
    out: &mut Vec<u8>,
    agent: Option<&'a [u8]>,
    note: Note<'a>,
) -> Result<Option<&'a [u8]>, AllocError>
    ensures { IfOk result (λ next. (notes : List Note) → out.new.items ++ clusters (option_map (λ a. a.now) next) notes
        ≡ out.old.items ++ clusters (option_map (λ a. a.now) agent.entry) (note.entry ∷ notes)) }
{
    let name = Raw(name_of(agent));
    match note {
        Note::AgentGraph { agent: next, .. } => {
            add_closing(out, agent)?;
            fill(out, CLUSTER, &[Raw(next), Raw(next), Labelled(ON, None)])?;
            Ok(Some(next))
        }
        Note::Node {
            number,
            point,
            phase,
            budget,
            worst,
            due,
        } => {
            let holes = [
                name,
                Number(number),
                Number(number),
                Number(point),
                Long(phase),
                Long(worst),
                Number(budget),
                Long(due),
            ];
            fill(out, NODE, &holes)?;
            Ok(agent)
        }
        Note::EdgeOf { from, to, len } => {
            fill(
                out,
                EDGE,
                &[name, Number(from), name, Number(to), Long(len)],
            )?;
            Ok(agent)
        }
        _ => Ok(agent),
    }
}

// What closes the cluster of an agent, where there is one.
fn add_closing(out: &mut Vec<u8>, agent: Option<&[u8]>) -> Result<(), AllocError>
    ensures { OnOk result (out.new.items ≡ out.old.items ++ closing (option_map (λ a. a.now) agent.entry)) }
{
    match agent {
        Some(_) => out.extend_from_slice(CLUSTER_END),
        None => Ok(()),
    }
}

// The agent's name; nothing where there is no agent.
fn name_of(agent: Option<&[u8]>) -> &[u8]
    ensures { result.now ≡ unwrap_or (option_map (λ a. a.now) agent.entry) [] }
{
    match agent {
        Some(name) => name,
        None => b"",
    }
}
