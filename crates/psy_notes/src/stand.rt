//! Where a text stands behind some lines, and which line may follow.
ghost use Rattle.std.specs.Prelude.{◌≡◌};
ghost use Rattle.psy_notes.specs.Stands.{behind_dated, behind_agents, behind_variables, behind_streams, behind_graph, may_be_dated, next_variable};
ghost use Rattle.psy_notes.specs.Stands.{next_stream, next_stand, may_end};

use psy_base::limits;
use psy_log::Note;

/// Where a text stands behind some of its lines.
#[derive(Clone, Copy, Debug, PartialEq, Eq)]
pub enum Stand {
    /// Behind dated lines of a run, the last of them of this date; at its beginning, 0.
    Dated {
        date: u64,
    },
    /// Behind the end of a run, and so many lines of agents.
    Agents {
        agents: u32,
    },
    /// Behind so many lines of variables.
    Variables {
        variables: u32,
    },
    /// Behind so many lines of streams.
    Streams {
        streams: u32,
    },
    /// Behind the first lines of so many agents' graphs; the last one has so many nodes, of which so many were told, and so many edges that weren't.
    Graphs {
        agents: u32,
        nodes: u32,
        told: u32,
        edges: u32,
    },
}

impl Stand {
    /// The beginning of what `psyc run` writes.
    pub const RUN: Stand = Stand::Dated { date: 0 };

    /// The beginning of what `psyc graph` writes.
    pub const GRAPH: Stand = Stand::Graphs {
        agents: 0,
        nodes: 0,
        told: 0,
        edges: 0,
    };

    /// Where the text stands behind this note's line; none exactly where that line may not follow.
    pub fn next(self, note: &Note) -> Option<Stand>
        ensures { result ≡ next_stand self note.now }
    {
        match self {
            Stand::Dated { date } => behind_dated(date, note),
            Stand::Agents { agents } => behind_agents(agents, note),
            Stand::Variables { variables } => behind_variables(variables, note),
            Stand::Streams { streams } => behind_streams(streams, note),
            Stand::Graphs {
                agents,
                nodes,
                told,
                edges,
            } => behind_graph(agents, nodes, told, edges, note),
        }
    }

    /// The text may end here.
    pub fn may_end(self) -> bool
        ensures { result ≡ may_end self }
    {
        match self {
            Stand::Dated { .. } => false,
            Stand::Agents { .. } | Stand::Variables { .. } | Stand::Streams { .. } => true,
            Stand::Graphs {
                nodes,
                told,
                edges,
                ..
            } => told == nodes && edges == 0,
        }
    }
}

fn may_be_dated(last: u64, date: u64) -> bool
    ensures { result ≡ may_be_dated last date }
{
    last <= date && date <= u64::from(limits::UNTIL)
}

fn behind_dated(last: u64, note: &Note) -> Option<Stand>
    ensures { result ≡ behind_dated last note.now }
{
    match *note {
        Note::StopOverrun { date, .. }
        | Note::StopTrap { date, .. }
        | Note::Value { date, .. }
        | Note::Message { date, .. }
            if may_be_dated(last, date) => { Some(Stand::Dated { date }) }
        Note::End { until } if may_be_dated(last, until) => Some(Stand::Agents { agents: 0 }),
        _ => None,
    }
}

fn behind_agents(agents: u32, note: &Note) -> Option<Stand>
    ensures { result ≡ behind_agents agents note.now }
{
    match note {
        Note::AgentEnd { .. } if agents < limits::AGENTS as u32 => Some(Stand::Agents {
            agents: agents + 1,
        }),
        Note::VariableEnd { .. } => next_variable(0),
        Note::StreamEnd { .. } => next_stream(0),
        _ => None,
    }
}

fn behind_variables(variables: u32, note: &Note) -> Option<Stand>
    ensures { result ≡ behind_variables variables note.now }
{
    match note {
        Note::VariableEnd { .. } => next_variable(variables),
        Note::StreamEnd { .. } => next_stream(0),
        _ => None,
    }
}

fn behind_streams(streams: u32, note: &Note) -> Option<Stand>
    ensures { result ≡ behind_streams streams note.now }
{
    match note {
        Note::StreamEnd { .. } => next_stream(streams),
        _ => None,
    }
}

fn next_variable(variables: u32) -> Option<Stand>
    ensures { result ≡ next_variable variables }
{
    if variables < limits::VARIABLES as u32 {
        Some(Stand::Variables {
            variables: variables + 1,
        })
    } else {
        None
    }
}

fn next_stream(streams: u32) -> Option<Stand>
    ensures { result ≡ next_stream streams }
{
    if streams < limits::STREAMS as u32 {
        Some(Stand::Streams {
            streams: streams + 1,
        })
    } else {
        None
    }
}

fn behind_graph(agents: u32, nodes: u32, told: u32, edges: u32, note: &Note) -> Option<Stand>
    ensures { result ≡ behind_graph agents nodes told edges note.now }
{
    match *note {
        Note::AgentGraph {
            nodes: more_nodes,
            edges: more_edges,
            ..
        } if (told == nodes && edges == 0)
            && (agents < limits::AGENTS as u32
                && (more_nodes <= limits::NODES && more_edges <= limits::EDGES)) => {
            Some(Stand::Graphs {
                agents: agents + 1,
                nodes: more_nodes,
                told: 0,
                edges: more_edges,
            })
        }
        Note::Node { number, .. } if number == told && told < nodes => Some(Stand::Graphs {
            agents,
            nodes,
            told: told + 1,
            edges,
        }),
        Note::EdgeOf { from, to, .. }
            if (told == nodes && 0 < edges) && (from < nodes && to < nodes) => {
            Some(Stand::Graphs {
                agents,
                nodes,
                told,
                edges: edges - 1,
            })
        }
        _ => None,
    }
}
