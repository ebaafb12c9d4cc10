//! The limits of the profile. Each is the greatest number that is accepted, but for the two measures of nesting, at which
//! a text is refused, and the two counts that are cut.

/// Bytes of a program, of an inputs file or of a script.
pub const FILE_BYTES: usize = 262_144;

/// Declared clocks.
pub const CLOCKS: usize = 64;

/// Declared agents.
pub const AGENTS: usize = 64;

/// Processors of a program, numbered from 0.
pub const PROCESSORS: u32 = 8;

/// Declared temporal variables and inputs together.
pub const VARIABLES: usize = 256;

/// Declared streams.
pub const STREAMS: usize = 64;

/// Declared functions.
pub const FUNCTIONS: usize = 64;

/// Parameters, variables and arrays of one agent or function.
pub const NAMES: usize = 64;

/// Points of one agent, the head of its body included.
pub const POINTS: usize = 256;

/// Bytes of a word of the program's text, so of a name.
pub const WORD_BYTES: usize = 32;

/// The value of a number in the program's text.
pub const LITERAL: u32 = 2_147_483_647;

/// Cycles of a tick.
pub const QUANTUM: u32 = 1_000_000;

/// Cycles of the budget of an action.
pub const BUDGET: u32 = 1_000_000;

/// Dates of a variable that can be looked back, the last one among them.
pub const DEPTH: u32 = 1_024;

/// Dates for which a message is kept.
pub const KEEP: u32 = 1_024;

/// Dates that an `advance` goes on by.
pub const ADVANCE: u32 = 1_024;

/// Dates by which a message is delayed.
pub const AFTER: u32 = 1_024;

/// Turns of a bounded loop.
pub const TURNS: u32 = 65_536;

/// Cells of an array.
pub const CELLS: u32 = 256;

/// Brackets that are open at a place of the text: that many are too many.
pub const BRACKETS: u32 = 64;

/// Operators since the last `;`, `{` or `}`: that many are too many.
pub const OPERATORS: u32 = 256;

/// Size of a unit, in instructions.
pub const UNIT_SIZE: u64 = 1_048_576;

/// Calls that are open at one time.
pub const OPEN_CALLS: u32 = 64;

/// Cost of an action, in instructions, as far as it is counted.
pub const COST: u64 = 1_000_000_000;

/// Sends to a stream in one action, as far as they are counted: one more than a queue can hold.
pub const SENDS: u64 = 65_537;

/// Digits of a number among the words of the command line.
pub const WORD_DIGITS: usize = 12;

/// The last date of a run.
pub const UNTIL: u32 = 1_000_000;

/// Nodes of one agent's action graph.
pub const NODES: u32 = 512;

/// Edges of one agent's action graph.
pub const EDGES: u32 = 4_096;

/// Places of a ring.
pub const RING: u32 = 65_536;

/// Places of a queue.
pub const QUEUE: u32 = 65_536;

/// Cells of a table of windows: its nodes times its lengths.
pub const WINDOW_CELLS: u64 = 4_000_000;

/// Lines of an inputs file or of a script.
pub const LINES: usize = 10_000;

/// Cycles of a run.
pub const RUN: u64 = 100_000_000;

/// The number of an action or an instruction in a stall, and the cycles that a stall takes.
pub const STALL: u64 = 1_000_000;
