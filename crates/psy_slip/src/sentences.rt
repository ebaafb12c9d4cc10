//! What is told of a line of inputs or of a script, in sentences: each `$` is a hole.

// ---- signs in a line

pub const COMMENT: &[u8] = b"a comment is a line that begins with `#`";

pub const COMMA: &[u8] =
    b"words are separated by blanks: leave each comma out, or write a blank in its place";

pub const DATE: &[u8] =
    b"inputs have no dates: behind a name stand its values, one for each date of its clock, as in `target 200 300`";

pub const EQUAL: &[u8] =
    b"between a name and its values stand blanks alone: leave each `=` and `:` out, as in `target 200 300`";

// ---- a line of inputs

pub const HEAD: &[u8] =
    b"this looks like the head of a table: inputs have no columns and no dates: each line is a name and its values, as in `target 200 300`";

pub const VALUE_MISSING: &[u8] = b"behind `$` a value is missing";

pub const NO_VALUE: &[u8] =
    b"`$` is no value: a value is 1 to 12 digits, behind a `-` where it is negative";

pub const POINTED: &[u8] =
    b"`$` is no input of the program: a name stands alone, with no agent and no point before it";

pub const OF_SCRIPT: &[u8] = b"`$` is no input of the program: it begins a line of a script";

pub const NO_INPUT: &[u8] = b"`$` is no input of the program";

pub const LISTED: &[u8] = b"`$` has its values from an earlier line";

pub const LISTED_AT: &[u8] = b"`$` has its values from line $";

pub const VALUE_RANGE: &[u8] = b"`$` is out of range: a value is -2147483648 to 2147483647";

// ---- a line of a script

pub const NO_STATEMENT: &[u8] = b"`$` begins no line of a script: `stall`, `order` and `round` do";

pub const NO_NUMBER: &[u8] = b"`$` is no number: a number is 1 to 12 digits";

pub const STALL_WORDS: &[u8] =
    b"behind `stall` stand AGENT ACTION INSTRUCTION CYCLES; words here: $";

pub const ORDER_WORDS: &[u8] = b"behind `order` stand a cycle, and each agent of the program";

pub const ORDER_NAMES: &[u8] =
    b"behind the cycle each agent of the program stands once; names here: $";

pub const ROUND_WORDS: &[u8] = b"behind `round` stand a cycle, and each processor of the program";

pub const ROUND_NUMBERS: &[u8] =
    b"behind the cycle each processor of the program stands once; numbers here: $";

pub const NO_AGENT: &[u8] = b"`$` is no agent of the program";

pub const SOME_STRANGER: &[u8] = b"a name of this order is no agent of the program";

pub const STRANGERS: &[u8] = b"$ is no agent of the program";

pub const SAID_AT: &[u8] = b"this is said already by line $";

pub const TWICE: &[u8] = b"`$` is named twice";

pub const ACTION_RANGE: &[u8] = b"`$` is out of range: the number of an action is at most 1000000";

pub const INSTRUCTION_RANGE: &[u8] =
    b"`$` is out of range: the number of an instruction is at most 1000000";

pub const CYCLES_RANGE: &[u8] = b"`$` is out of range: a stall takes 1 to 1000000 cycles";

pub const ORDER_RANGE: &[u8] =
    b"`$` is out of range: an order holds from a cycle of at most 100000000 on";

pub const ROUND_RANGE: &[u8] =
    b"`$` is out of range: a round holds from a cycle of at most 100000000 on";

pub const NO_PROCESSOR: &[u8] = b"`$` is no processor of the program";

// ---- names behind one another

pub const QUOTED: &[u8] = b"`$`";

pub const OR: &[u8] = b" or ";

pub const AND: &[u8] = b" and ";

// ---- what the program tells

pub const IS_TEMPORAL: &[u8] = b"`$` is a temporal variable, which its agent writes";

pub const IS_STREAM: &[u8] = b"`$` is a stream, to which agents send";

pub const IS_AGENT: &[u8] = b"`$` is an agent";

pub const IS_CLOCK: &[u8] = b"`$` is a clock";

pub const IS_INSIDE: &[u8] = b"`$` is a function, or a variable inside one or inside an agent";

pub const INPUT_MEANT: &[u8] = b"the program has an input `$`: is that meant?";

pub const AGENT_MEANT: &[u8] = b"the program has an agent `$`: is that meant?";

pub const NO_INPUTS: &[u8] = b"the program has no inputs";

pub const ONLY_INPUT: &[u8] = b"the only input is $";

pub const ALL_INPUTS: &[u8] = b"the inputs are $";

pub const FIRST_INPUTS: &[u8] = b"the first eight inputs are $";

pub const LEFT_OUT: &[u8] = b"`$` is left out of this order";

pub const NO_SUCH_AGENT: &[u8] = b"the program has no agent `$`";

// ---- a whole file

pub const MARKED: &[u8] =
    b"this file begins with a byte order mark, the bytes EF BB BF: save it without one";

pub const UNLIKE: &[u8] = b"this file looks like $, not like $";

pub const PROGRAM: &[u8] = b"a program";

pub const INPUTS: &[u8] = b"inputs";

pub const SCRIPT: &[u8] = b"a script";

pub const LOG: &[u8] = b"the log of a run";
