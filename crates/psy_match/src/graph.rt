//! Whether a graph is of a program.
ghost use Rattle.std.specs.Prelude.{◌≡◌, ◌∷◌, [], List, MatchOption, Some, drop, false, length, option_map, slice_get, true};
ghost use Rattle.std.specs.Option.{option_copied};
ghost use Rattle.psy_log.specs.declared.note.Note.{Note};
ghost use Rattle.psy_match.specs.Belonging.{behind, first_in_graph, foreign_in_graph, has_budget, is_next_agent, left_over, next_points};

use psy_log::Note;
use psy_tree::{AgentDecl, Point, Unit};

// The points of the agent whose graph is told, and the agents behind it.
#[derive(Clone, Copy)]
struct Left<'u> {
    points: &'u [Point],
    agents: &'u [AgentDecl],
}

/// The number, counted from 1, of the first note of a graph that isn't of the program: that of another agent, or of a node at a point that the agent
/// hasn't, or with another budget. One more than there are notes where the graphs of some agents aren't told.
#[tactic(auto, using(crate::proofs::Counting::at_first, crate::proofs::Counting::one_further, crate::proofs::Counting::here, crate::proofs::Counting::none))]
pub fn foreign_in_graph(notes: &[Note], unit: &Unit) -> Option<usize>
    ensures { result ≡ foreign_in_graph unit.now notes.now }
{
    let mut left = Left {
        points: &[],
        agents: unit.agents.as_slice(),
    };
    'each: for (index, note) in notes.iter().enumerate() {
        let Some(more) = behind(left, note) else {
            return Some(index + 1);
        };
        left = more;
    }
    if left.agents.is_empty() {
        None
    } else {
        Some(notes.len() + 1)
    }
}

// What is left behind a note; none where that isn't of the program.
fn behind<'u>(left: Left<'u>, note: &Note) -> Option<Left<'u>>
    ensures { MatchOption result ((notes : List Note) → first_in_graph left.entry.points.now left.entry.agents.now (note.now ∷ notes) ≡ Some 1)
        (λ more. (notes : List Note) → first_in_graph left.entry.points.now left.entry.agents.now (note.now ∷ notes)
        ≡ behind (first_in_graph more.points.now more.agents.now notes)) }
{
    match *note {
        Note::AgentGraph { agent, .. } => {
            let more = behind_agent(left.agents, agent)?;
            Some(more)
        }
        Note::Node { point, budget, .. } => {
            if has_budget(left.points.get(point as usize), budget) {
                Some(left)
            } else {
                None
            }
        }
        _ => Some(left),
    }
}

// What is left behind an agent of this name.
fn behind_agent<'u>(agents: &'u [AgentDecl], name: &[u8]) -> Option<Left<'u>>
    ensures { MatchOption result (is_next_agent agents.now name.now ≡ false) (λ more. (is_next_agent agents.now name.now ≡ true)
        × (more.points.now ≡ next_points agents.now) × (more.agents.now ≡ drop 1 agents.now)) }
{
    let (agent, more) = agents.split_first()?;
    if name != agent.name.bytes() {
        return None;
    }
    Some(Left {
        points: agent.points.as_slice(),
        agents: more,
    })
}

fn has_budget(point: Option<&Point>, budget: u32) -> bool
    ensures { result ≡ has_budget (option_copied point.entry) budget }
{
    match point {
        Some(point) => point.budget == budget,
        None => false,
    }
}
