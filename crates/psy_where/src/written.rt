//! The lines that psyc writes and that refuse nothing.
ghost use Rattle.std.specs.Prelude.{◌≡◌};
ghost use Rattle.psy_log.specs.Forms.{says};
ghost use Rattle.psy_where.specs.Writings.{trapped, written_in, written_words};

use psy_arith::Trap;
use psy_log::Note;

/// A line that psyc writes and that refuses nothing.
#[derive(Clone, Copy, Debug, PartialEq, Eq)]
pub enum Written {
    /// A value of a temporal variable.
    Value,
    /// A message.
    Message,
    /// An agent is silent, since its budget was spent.
    Overrun,
    /// An agent is silent, since it divided by 0.
    Divide,
    /// An agent is silent, since an index was outside its array.
    Index,
    /// An agent is silent, since a loop went past its last turn.
    Loop,
    /// An agent is silent, since it took a message where there was none.
    Take,
    /// The end of a run.
    End,
    /// The demand is met.
    Feasible,
    /// The size of a ring.
    VariableSize,
    /// The size of a queue.
    StreamSize,
    /// What is told of an agent, of a run or of a graph.
    Agent,
    /// What is told of a variable.
    Variable,
    /// What is told of a stream.
    Stream,
    /// An agent's rate.
    Rate,
    /// An edge of a graph.
    Edge,
    /// A node of a graph.
    Node,
    /// A trace is legal.
    Legal,
}

/// What a note is, where it refuses nothing.
pub fn written_of(note: Note<'_>) -> Option<Written>
    ensures { result ≡ written_in (says note.entry).0 (says note.entry).1 }
{
    match note {
        Note::StopOverrun { .. } => Some(Written::Overrun),
        Note::StopTrap { kind, .. } => Some(trapped(kind)),
        Note::Value { .. } => Some(Written::Value),
        Note::Message { .. } => Some(Written::Message),
        Note::End { .. } => Some(Written::End),
        Note::AgentEnd { .. } | Note::AgentGraph { .. } => Some(Written::Agent),
        Note::VariableEnd { .. } => Some(Written::Variable),
        Note::StreamEnd { .. } => Some(Written::Stream),
        Note::VariableSize { .. } => Some(Written::VariableSize),
        Note::StreamSize { .. } => Some(Written::StreamSize),
        Note::Rate { .. } => Some(Written::Rate),
        Note::Always | Note::Feasible { .. } => Some(Written::Feasible),
        Note::Node { .. } => Some(Written::Node),
        Note::EdgeOf { .. } => Some(Written::Edge),
        Note::Legal { .. } => Some(Written::Legal),
        _ => None,
    }
}

// What a stop says, by its trap.
fn trapped(kind: Trap) -> Written
    ensures { result ≡ trapped kind }
{
    match kind {
        Trap::Divide => Written::Divide,
        Trap::Index => Written::Index,
        Trap::Loop => Written::Loop,
        Trap::Take => Written::Take,
    }
}

/// What it means.
pub fn written_words(written: Written) -> &'static [u8]
    ensures { result.now ≡ written_words written }
{
    match written {
        Written::Value => b"it is the value of a temporal variable at a date",
        Written::Message => b"it is a message, which can be seen from a date on",
        Written::Overrun =>
            b"an action that was due at this date overran its budget, and its agent is silent from then on: `psyc graph` tells WORST, which is enough",
        Written::Divide =>
            b"an action that was due at this date trapped at a division by 0, and its agent is silent from then on: test the divisor before `/` and `%`",
        Written::Index =>
            b"an action that was due at this date trapped at an index outside its array, and its agent is silent from then on: test the index before",
        Written::Loop =>
            b"an action that was due at this date trapped behind the last turn of a loop, and its agent is silent from then on: a greater `max` helps",
        Written::Take =>
            b"an action that was due at this date trapped at a `take` without a message, and its agent is silent from then on: ask `ready` before",
        Written::End => b"the run came to its end at this date",
        Written::Feasible =>
            b"over each length, up to this date or without an end, the demand is supplied",
        Written::VariableSize => b"so many values of a variable are kept",
        Written::StreamSize => b"for so many messages of a stream there is room",
        Written::Agent =>
            b"of a run it tells how many actions of an agent were due, and the least slack of one; of a graph its nodes and its edges",
        Written::Variable =>
            b"so many values of a variable are kept, and behind that stands the greatest age of a look at it",
        Written::Stream =>
            b"for so many messages of a stream there is room, and behind that stands how many it held at most",
        Written::Rate =>
            b"it is the line above an agent's demand: its rate and its intercept, in parts of a cycle",
        Written::Edge =>
            b"it is an edge of an agent's graph: from which node to which, and how many ticks long",
        Written::Node =>
            b"it is a node of an agent's graph: its number, its point, its phase, BUDGET, WORST and DUE",
        Written::Legal => b"the trace is legal, and tells of so many actions and so many looks",
    }
}
