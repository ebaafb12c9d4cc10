//! Why a text is no program, or none that can be planned.
ghost use Rattle.std.specs.Prelude.{◌≡◌, ◌≤◌, length, Some as some};
ghost use Rattle.psy_base.specs.declared.limits.TheConstants.{WORD_BYTES};
ghost use Rattle.psy_log.specs.Forms.{line_of as note_line, limit_line, name_of, refused_line};
ghost use Rattle.psy_plan.specs.Lines.{count_limit, count_name, line_of, told_processor as told};
ghost use Rattle.psy_plan.specs.declared.refusal.Stop.TheVariants.{Memory as no_memory};

use psy_base::{Memory, limits};
use psy_log::Note;
use psy_tree::{Count, LexKind, RuleKind};
use thiserror::Error;

/// Why a text is no program, or a program can't be planned. Contracts read the line of each from one definition.
#[derive(Clone, Copy, Debug, PartialEq, Eq)]
pub enum Refusal {
    /// The first fault of the text, after so many bytes.
    Lexical {
        kind: LexKind,
        place: u32,
    },
    /// The text is nested too deep at the token of this number.
    Deep(u32),
    /// The tokens aren't those of a program, and that of this number is at fault.
    Syntax(u32),
    /// The program breaks a rule at the token of this number.
    Rule {
        kind: RuleKind,
        token: u32,
    },
    /// So many declarations of one sort that their limit is passed.
    Many(Count),
    /// The action graph of an agent would have more than 512 nodes.
    Nodes,
    /// It has no more than 512 nodes, but more than 4,096 edges.
    Edges,
    /// The ring of a variable would have more than 65,536 places.
    Ring,
    /// The queue of a stream would have more than 65,536 places.
    Queue,
    /// A table of windows, for the demand or for a queue, would have more than 4,000,000 cells.
    Cells,
    /// Over so many ticks the agents of a processor may demand more cycles than it supplies.
    Infeasible {
        length: u32,
        demand: u64,
        supply: u64,
        processor: u32,
    },
}

/// Why there is no answer.
#[derive(Clone, Copy, Debug, PartialEq, Eq, Error)]
pub enum Stop {
    /// The text was refused.
    #[error("the text is refused")]
    Refused(Refusal),
    /// Want of memory.
    #[error("out of memory")]
    Memory,
}

impl From<Memory> for Stop {
    ghost from_gives = { λ _ stop. stop ≡ no_memory };

    fn from(_memory: Memory) -> Stop {
        Stop::Memory
    }
}

impl Refusal {
    /// The note that psyc writes of it; a line has room for the name in it.
    pub fn note(self) -> Note<'static>
        ensures line { note_line result ≡ line_of self }
        ensures short { length (name_of result) ≤ WORD_BYTES }
    {
        match self {
            Refusal::Lexical { kind, place } => refused(b"lex", kind.number(), place),
            Refusal::Deep(token) => refused(b"parse", 2, token),
            Refusal::Syntax(token) => refused(b"parse", 1, token),
            Refusal::Rule { kind, token } => refused(b"rule", kind.number(), token),
            Refusal::Many(count) => limit(word_of(count), most_of(count)),
            Refusal::Nodes => limit(b"nodes", u64::from(limits::NODES)),
            Refusal::Edges => limit(b"edges", u64::from(limits::EDGES)),
            Refusal::Ring => limit(b"ring", u64::from(limits::RING)),
            Refusal::Queue => limit(b"queue", u64::from(limits::QUEUE)),
            Refusal::Cells => limit(b"cells", limits::WINDOW_CELLS),
            Refusal::Infeasible {
                length,
                demand,
                supply,
                processor,
            } => infeasible(length, demand, supply, processor),
        }
    }
}

fn refused(what: &'static [u8], number: u32, at: u32) -> Note<'static>
    requires { length what.now ≤ WORD_BYTES }
    ensures line { note_line result ≡ refused_line what.now number (some at) }
    ensures short { length (name_of result) ≤ WORD_BYTES }
{
    Note::Refused {
        what,
        number,
        at: Some(at),
    }
}

fn limit(name: &'static [u8], number: u64) -> Note<'static>
    requires { length name.now ≤ WORD_BYTES }
    ensures line { note_line result ≡ limit_line name.now number }
    ensures short { length (name_of result) ≤ WORD_BYTES }
{
    Note::Limit { name, number }
}

// The processor that a refusal names: none where it is the first.
fn told_processor(processor: u32) -> Option<u32>
    ensures { result ≡ told processor }
{
    if processor == 0 {
        None
    } else {
        Some(processor)
    }
}

fn infeasible(within: u32, demand: u64, supply: u64, processor: u32) -> Note<'static>
    ensures line { note_line result ≡ line_of (Refusal.Infeasible within demand supply processor) }
    ensures short { length (name_of result) ≤ WORD_BYTES }
{
    Note::Infeasible {
        length: u64::from(within),
        demand,
        supply,
        processor: told_processor(processor),
    }
}

// What a count is called in a line.
fn word_of(count: Count) -> &'static [u8]
    ensures name { result.now ≡ count_name count }
    ensures short { length result.now ≤ WORD_BYTES }
{
    match count {
        Count::Clocks => b"clocks",
        Count::Agents => b"agents",
        Count::Variables => b"variables",
        Count::Streams => b"streams",
        Count::Functions => b"functions",
        Count::Names => b"names",
        Count::Points => b"points",
    }
}

// The greatest number that a count may have.
fn most_of(count: Count) -> u64
    ensures { result ≡ count_limit count }
{
    let most = match count {
        Count::Clocks => limits::CLOCKS,
        Count::Agents => limits::AGENTS,
        Count::Variables => limits::VARIABLES,
        Count::Streams => limits::STREAMS,
        Count::Functions => limits::FUNCTIONS,
        Count::Names => limits::NAMES,
        Count::Points => limits::POINTS,
    };
    most as u64
}
