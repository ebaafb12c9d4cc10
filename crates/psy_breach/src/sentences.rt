//! What is told of a rule that is broken, in sentences: each `$` is a hole.

/// A name, what it is, the line of its declaration, and what is told of that.
pub const DECLARED: &[u8] = b"`$` is $, declared in line $$";

// ---- what a declaration declares

pub const CLOCK: &[u8] = b"a clock";

pub const TEMPORAL: &[u8] = b"a temporal variable";

pub const INPUT: &[u8] = b"an input";

pub const STREAM: &[u8] = b"a stream";

pub const AGENT: &[u8] = b"an agent";

pub const FUNCTION: &[u8] = b"a function";

pub const ARRAY: &[u8] = b"an array";

pub const VARIABLE: &[u8] = b"a variable";

pub const NAME: &[u8] = b"a name";

// ---- a name that is declared twice, or isn't declared

pub const TWICE: &[u8] = b": choose another name";

pub const BELOW: &[u8] = b": a clock is derived from one that stands above it";

pub const MEANT: &[u8] = b": is that meant?";

pub const NEARLY: &[u8] = b"`$` is nearly `$`: is that meant?";

pub const TRUTHS: &[u8] = b"there are no `true` and `false`: write 1 and 0";

pub const SIZES: &[u8] =
    b"there is no `sizeof`: write the number of cells with which the array is declared";

pub const OPERATORS: &[u8] = b"the operators are written `&&`, `||`, `!` and `%`";

pub const OUT_OF_FUNCTION: &[u8] =
    b", inside another agent or function: a function sees its own parameters and variables alone, so hand it the value as an argument";

pub const OUT_OF_AGENT: &[u8] =
    b", inside another agent or function, and can't be seen here: declare one here, or have the agent publish a temporal variable";

pub const NO_CLOCK: &[u8] =
    b"`$` is declared nowhere: declare a clock, as in `clock c = 1 * tick;`";

pub const NO_AGENT: &[u8] = b"`$` is declared nowhere: an agent of this name is missing";

pub const NO_STREAM: &[u8] =
    b"`$` is declared nowhere: declare a stream, as in `stream s to A keep 1 on c;`";

pub const NO_TEMPORAL: &[u8] =
    b"`$` is declared nowhere: declare a temporal variable, as in `temporal v of A on c = 0 depth 1;`, or an input";

pub const NO_FUNCTION: &[u8] =
    b"`$` is declared nowhere: declare a function above, as in `int f(int a) { return a; }`";

pub const NO_ARRAY: &[u8] =
    b"`$` is declared nowhere: declare an array before `body`, as in `int a[4];`";

pub const NO_VARIABLE: &[u8] =
    b"`$` is declared nowhere: declare a variable before the statements, as in `int n = 0;`";

// ---- a name that is another agent's, or below

pub const OWNED: &[u8] =
    b"`$` is of `$`, which alone assigns it: give this agent a variable of its own, or send a message";

pub const LOOKED: &[u8] = b"`$` is of `$`: look at it by `past($, 0)`";

pub const RECEIVED: &[u8] =
    b"`$` goes to `$`, which alone may ask `ready` and `take` of it: declare a stream to this agent";

pub const ITSELF: &[u8] = b"`$` calls itself, and there is no recursion: write a loop";

pub const ABOVE: &[u8] = b": put it above the one that calls it";

// ---- a name of another sort than its place asks for, or a word that stands elsewhere

pub const ARGUMENTS: &[u8] = b"`$` takes this number of arguments: $";

pub const UNSEEN: &[u8] =
    b": a function sees its own parameters and variables alone, so hand it the value as an argument";

pub const AT_CLOCK: &[u8] = b", and here a clock is named";

pub const AT_PARENT: &[u8] = b", and a clock is derived from `tick` or from a clock";

pub const AT_AGENT: &[u8] = b", and here an agent is named";

pub const AT_TARGET: &[u8] = b", and messages are sent to a stream";

pub const AT_MESSAGES: &[u8] = b", and `ready` and `take` are asked of a stream";

pub const AT_PAST: &[u8] = b", and `past` looks at a temporal variable or an input";

pub const AT_CALL: &[u8] = b", and only a function is called";

pub const AT_CELL: &[u8] = b", and only an array has cells, as one declared by `int a[4];`";

pub const ASSIGNED_ARRAY: &[u8] = b", of which a cell is assigned, as in `a[0] = 1;`";

pub const ASSIGNED_STREAM: &[u8] =
    b", to which messages are sent, as in `send 1 to s after 0 on c;`";

pub const ASSIGNED_INPUT: &[u8] = b", which comes from outside and isn't assigned";

pub const ASSIGNED_OTHER: &[u8] = b", and only a variable is assigned";

pub const VALUE_OF_ARRAY: &[u8] = b", of which a cell has a value, as in `a[0]`";

pub const VALUE_OF_STREAM: &[u8] =
    b", of which `take` gives a message, and `ready` how many there are";

pub const VALUE_OF_INPUT: &[u8] = b", which `past` alone looks at, as in `past(x, 0)`";

pub const VALUE_OF_FUNCTION: &[u8] = b", which has a value where it is called, as in `f(1)`";

pub const NO_VALUE: &[u8] = b", and has no value";

pub const RETURN: &[u8] =
    b"`return` stands in functions alone: what an agent does ends at its `advance`";

pub const IN_AGENTS: &[u8] =
    b"`past`, `ready`, `take`, `send` and `advance` stand in agents alone: hand a function what it needs as an argument";

// ---- numbers

pub const RANGE: &[u8] = b"behind `$` stands a number from $ to $";

pub const CELLS_RANGE: &[u8] = b"an array has from 1 to $ cells";

pub const INT8: &[u8] =
    b"the values of an `int8` go from -128 to 127: begin with one of them, or take a wider type";

pub const INT16: &[u8] =
    b"the values of an `int16` go from -32768 to 32767: begin with one of them, or take a wider type";

pub const DEEP: &[u8] =
    b"`$` has a depth of $, and the number in `past` is to be below it: make the depth greater, or the number less";

pub const FACTOR: &[u8] = b"the factor of a clock is at least 1";

pub const SHIFT: &[u8] = b"the shift, $, is to be below the factor, $";

pub const TICKS: &[u8] = b"its period is $ ticks, and may be $ at most";

pub const PERIODS: &[u8] =
    b"its period is $ times that of `$`, which is more than $ ticks: take a lesser factor, or a clock of a lesser period";

// ---- loops, and bodies without an `advance`

pub const ENDLESS: &[u8] =
    b"tell how many turns it takes at most, as in `while (..) max 10 { .. }`, or put an `advance` on each way round it";

pub const TIMELESS: &[u8] =
    b"a function takes no time, and has no `advance`: write the loop in the agent";

pub const BOUNDED: &[u8] =
    b"this loop has a `max`, and an `advance` in it: take the `max` away, since a loop that takes time needs none, or the `advance` out";

pub const ROUNDS: &[u8] =
    b"this loop has an `advance`, but a way round it meets none: put one on each way, also where an `if` is skipped";

pub const QUIET: &[u8] =
    b"put one at its end: one in a loop, or under an `if` without an `else` that has one too, isn't on each path";
