//! What is told of common slips.
ghost use Rattle.std.specs.Prelude.{◌≡◌};
ghost use Rattle.psy_expect.specs.Hints.{hint_of, hint_words};

use crate::around::Around;
use crate::fits::fits;
use crate::terminal::Terminal;

/// A common slip, by what is told of it.
#[derive(Clone, Copy, Debug, PartialEq, Eq)]
pub enum Hint {
    /// A function inside an agent or another function.
    FunctionInside,
    /// A variable is declared among statements.
    DeclarationInBody,
    /// A variable is declared behind a body, or a function inside an agent.
    DeclarationBehindBody,
    /// A type where none is written.
    NoType,
    /// `int8`, `float` and their kin where there is `int` alone.
    Width,
    /// Another language's word for a type.
    Types,
    /// A named constant.
    Constant,
    /// `const`, `static` and their kin.
    Modifier,
    /// `void` in the place of parameters.
    NoParameters,
    /// A function without a value.
    Void,
    /// A function begins with another word.
    FunctionWord,
    /// `struct` and its kin.
    Structure,
    /// `extern` and its kin.
    External,
    /// A loop in the manner of C.
    NoFor,
    /// Another loop than `while`.
    OtherLoop,
    /// `break` and its kin.
    Jump,
    /// `switch` and its kin.
    Switch,
    /// `else if`, `elif` and their kin.
    ElseIf,
    /// `else` without `{`.
    Else,
    /// A reserved word in other case.
    SmallLetters,
    /// `then` behind a condition.
    Then,
    /// `times` for `*`.
    Times,
    /// Operators as words.
    Logical,
    /// Another word that lets time pass.
    Wait,
    /// A word that prints.
    Print,
    /// A value as a statement.
    ValueAlone,
    /// `tick` where a clock is named.
    TickAsClock,
    /// `++` or `--` in a value.
    IncrementWithin,
    /// `++` or `--`.
    Increment,
    /// `+=` and its kin.
    Compound,
    /// `=<` or `=>`.
    LessOrEqual,
    /// `=!`
    NotEqual,
    /// `<>`.
    Unlike,
    /// `**`.
    Power,
    /// `->`.
    Arrow,
    /// A `*` or a `&` for an address.
    Pointer,
    /// A plus before an operand.
    UnaryPlus,
    /// `sizeof`
    Sizeof,
    /// A `]` that is missing.
    Square,
    /// Values of an array in braces.
    Cells,
    /// Two indices.
    Dimension,
    /// A variable outside agents and functions.
    Global,
    /// A variable without a first value.
    NoValue,
    /// A name as a statement.
    NameAlone,
    /// `return` without a value.
    NoResult,
    /// An assignment as a value.
    Chain,
    /// `=` in the condition of a loop.
    LoopComparison,
    /// `=` where a comparison is meant.
    Comparison,
    /// `==` where an assignment is meant.
    Assignment,
    /// Two names in one declaration, or two assignments in one statement.
    OneByOne,
    /// A call as a statement.
    Call,
    /// A function without its statements.
    Prototype,
    /// `past`, `ready` or `take` without brackets.
    Brackets,
    /// A `)` that is missing behind the number of `past`.
    Round,
    /// A name or an expression behind `max`.
    MaxAlone,
    /// The same behind `advance`.
    AdvanceAlone,
    /// A sign before a number that has none.
    Signed,
    /// A name or an expression where a number stands.
    NumberAlone,
    /// A comma, or a type, that is too much.
    LeaveOut,
    /// A `;` behind a condition.
    EmptyCondition,
    /// An agent without `body`.
    BodyMissing,
    /// A bracket that closes none.
    Extra,
    /// A condition whose statements have no `{`.
    Braces,
    /// `after` without a number.
    After,
    /// A `;` too many.
    NoStatement,
    /// A statement behind the `}` of an agent or a function.
    Ended,
    /// A statement outside agents and functions.
    Outside,
    /// A loop around a body.
    Repeats,
    /// A statement of an agent outside its body.
    NoBody,
    /// A statement behind a body.
    BodyEnded,
    /// A second `tick`.
    SecondTick,
    /// A second `body`.
    SecondBody,
    /// A declaration of the whole program inside an agent.
    InsideAgent,
    /// `past` without a number.
    Back,
    /// A `}` that is missing.
    Close,
    /// An `else` that belongs to no `if`.
    ElseAlone,
    /// A `;` that is missing.
    Semicolon,
    /// Something else that is missing.
    Missing,
    /// A block by itself.
    Block,
    /// An expression where `past`, `ready` and `take` want a name.
    LookName,
    /// A cast in the form of another language.
    Cast,
    /// A reserved word that is called.
    ReservedCall,
    /// A reserved word as a name.
    Reserved,
    /// A `;` that is missing where more is wrong.
    SemicolonAtEnd,
    /// An array of a function.
    FunctionArray,
    /// A clock without a period.
    Period,
    /// A temporal variable without a first value.
    FirstTemporal,
    /// An input without a first value.
    FirstInput,
    /// A variable or an input without a depth.
    Depth,
    /// The form of the first line.
    FormTick,
    /// A `;` behind a bracket or a `;`.
    NoSemicolon,
    /// The form of a clock.
    FormClock,
    /// The form of a temporal variable.
    FormTemporal,
    /// The form of an input.
    FormInput,
    /// The form of a stream.
    FormStream,
    /// The form of an agent.
    FormAgent,
    /// The forms of what `int` begins.
    FormInt,
    /// The forms of what another type begins.
    FormType,
    /// The form of an `if`.
    FormIf,
    /// The form of a loop.
    FormWhile,
    /// The form of a message.
    FormSend,
    /// The form of an advance.
    FormAdvance,
    /// The form of an assignment.
    FormAssign,
}

const HINTS: [Hint; 103] = [
    Hint::FunctionInside,
    Hint::DeclarationInBody,
    Hint::DeclarationBehindBody,
    Hint::NoType,
    Hint::Width,
    Hint::Types,
    Hint::Constant,
    Hint::Modifier,
    Hint::NoParameters,
    Hint::Void,
    Hint::FunctionWord,
    Hint::Structure,
    Hint::External,
    Hint::NoFor,
    Hint::OtherLoop,
    Hint::Jump,
    Hint::Switch,
    Hint::ElseIf,
    Hint::Else,
    Hint::SmallLetters,
    Hint::Then,
    Hint::Times,
    Hint::Logical,
    Hint::Wait,
    Hint::Print,
    Hint::ValueAlone,
    Hint::TickAsClock,
    Hint::IncrementWithin,
    Hint::Increment,
    Hint::Compound,
    Hint::LessOrEqual,
    Hint::NotEqual,
    Hint::Unlike,
    Hint::Power,
    Hint::Arrow,
    Hint::Pointer,
    Hint::UnaryPlus,
    Hint::Sizeof,
    Hint::Cast,
    Hint::Square,
    Hint::Cells,
    Hint::Dimension,
    Hint::Global,
    Hint::NoValue,
    Hint::NameAlone,
    Hint::NoResult,
    Hint::Chain,
    Hint::LoopComparison,
    Hint::Comparison,
    Hint::Assignment,
    Hint::OneByOne,
    Hint::Call,
    Hint::Prototype,
    Hint::Brackets,
    Hint::Round,
    Hint::MaxAlone,
    Hint::AdvanceAlone,
    Hint::Signed,
    Hint::NumberAlone,
    Hint::LeaveOut,
    Hint::EmptyCondition,
    Hint::BodyMissing,
    Hint::Extra,
    Hint::Braces,
    Hint::After,
    Hint::NoStatement,
    Hint::Ended,
    Hint::Outside,
    Hint::Repeats,
    Hint::NoBody,
    Hint::BodyEnded,
    Hint::SecondTick,
    Hint::SecondBody,
    Hint::InsideAgent,
    Hint::Back,
    Hint::Close,
    Hint::ElseAlone,
    Hint::Semicolon,
    Hint::FormTick,
    Hint::NoSemicolon,
    Hint::Missing,
    Hint::Block,
    Hint::LookName,
    Hint::ReservedCall,
    Hint::Reserved,
    Hint::SemicolonAtEnd,
    Hint::FunctionArray,
    Hint::Period,
    Hint::FirstTemporal,
    Hint::FirstInput,
    Hint::Depth,
    Hint::FormClock,
    Hint::FormTemporal,
    Hint::FormInput,
    Hint::FormStream,
    Hint::FormAgent,
    Hint::FormInt,
    Hint::FormType,
    Hint::FormIf,
    Hint::FormWhile,
    Hint::FormSend,
    Hint::FormAdvance,
    Hint::FormAssign,
];

/// The first rule that fits a place with this around it, where these terminals may stand, the program goes on where one of those is put before it, or where
/// it is left out.
pub fn hint_of(
    around: Around,
    told: &[Terminal],
    mends: &[Terminal],
    is_extra: bool,
) -> Option<Hint>
    ensures { result ≡ hint_of around told.now mends.now is_extra }
{
    HINTS
        .iter()
        .copied()
        .find(|hint| fits(*hint, around, told, mends, is_extra))
}

/// What is told where the rule fits; nothing of what is missing, or of a number alone with a range, which are told in words of their own.
pub fn hint_words(hint: Hint) -> &'static [u8]
    ensures { result.now ≡ hint_words hint }
{
    match hint {
        Hint::FunctionInside =>
            b"a function stands outside of agents and of other functions: put it above, or add the `}` that is missing further up",
        Hint::DeclarationInBody =>
            b"variables are declared before the statements: those of an agent before `body`, those of a function at its head",
        Hint::DeclarationBehindBody =>
            b"behind `body` nothing stands in an agent: variables are declared before it; before a function a `}` is missing",
        Hint::NoType =>
            b"temporal variables, inputs and messages are always `int`, and no type is written: leave it out",
        Hint::Width =>
            b"a function's result and its parameters are always `int`; variables and arrays may be of another type, as in `int8 n = 0;`",
        Hint::Types =>
            b"the types are `int8`, `int16`, `int32`, `int64`, and `int`, which is `int32`",
        Hint::Constant =>
            b"there are no named constants: write the number, or a function that returns it, as in `int limit() { return 5; }`",
        Hint::Modifier =>
            b"there is no `const`, `static` or the like: leave it out; an agent's variables keep their values from action to action",
        Hint::NoParameters =>
            b"a function without parameters is written with nothing in its brackets, as in `int f() { return 0; }`: leave `void` out",
        Hint::Void => b"each function gives a value: write `int f(..) { .. return ..; }`",
        Hint::FunctionWord => b"a function begins with `int`, as in `int f(int a) { return a; }`",
        Hint::Structure =>
            b"there is no `struct` and no `typedef`: each value is a number, and an agent has arrays of them, as in `int a[4];`",
        Hint::External =>
            b"a program is one file, and takes nothing from others: leave this out, and declare here what it needs",
        Hint::NoFor => b"there is no `for`: count in a `while (..) max N { .. }`",
        Hint::OtherLoop =>
            b"the only loop is `while (..) max N { .. }`; a `body` begins again by itself",
        Hint::Jump =>
            b"there is no `break` and no `continue`: put what ends a loop into its condition",
        Hint::Switch => b"there is no `switch`: write `if (..) { .. } else { .. }`",
        Hint::ElseIf => b"behind `else` stands `{`: `else if` is written `else { if (..) { .. } }`",
        Hint::Else => b"statements under `else` stand in braces, also where there is one alone",
        Hint::SmallLetters => b"reserved words are written in small letters",
        Hint::Then => b"there is no `then`: behind the condition stands `{`",
        Hint::Times => b"the sign of a product is `*`, as in `clock c = 10 * tick;`",
        Hint::Logical =>
            b"the operators are written `&&`, `||`, `!` and `%`, and those of bits `&`, `|`, `^` and `~`",
        Hint::Wait => b"time passes at `advance`, as in `advance 1 on c;`",
        Hint::Print =>
            b"there is no `print`: a run writes its temporal variables and messages, so give the value to a temporal variable",
        Hint::ValueAlone => b"a value is no statement: give it to a variable, as in `n = take(s);`",
        Hint::TickAsClock =>
            b"`tick` is no clock by itself: declare one, as in `clock each = 1 * tick;`",
        Hint::IncrementWithin =>
            b"there is no `++` and no `--`: write a statement of its own, as in `v = v - 1;`",
        Hint::Increment => b"there is no `++` and no `--`: write `v = v + 1;`",
        Hint::Compound => b"there is no `+=`, nor its kin: write `v = v + ..;`",
        Hint::LessOrEqual => b"`<=` and `>=` are written with the `=` behind",
        Hint::NotEqual => b"`!=` is written with the `=` behind",
        Hint::Unlike => b"that two values differ is written `!=`",
        Hint::Power => b"there is no `**`: write a product",
        Hint::Arrow =>
            b"there is no `->`, and names have no parts: a function may give a part of a value, as in `sender(frame)`, and `take(s)` gives a message",
        Hint::Pointer =>
            b"there are no pointers and no addresses: a name stands for its value, and a function gives one value, by `return`",
        Hint::UnaryPlus => b"there is no `+` before a value: leave it out",
        Hint::Sizeof =>
            b"there is no `sizeof`: write the number of cells with which the array is declared",
        Hint::Square => b"a `]` is missing before this",
        Hint::Cells =>
            b"the cells of an array begin at 0, as in `int a[4];`, and each is assigned by itself, as in `a[0] = 1;`",
        Hint::Dimension =>
            b"an array has one index: where rows of 4 are meant, write `a[4 * i + j]`",
        Hint::Global =>
            b"variables stand in agents and functions; agents share `temporal v of A on c = 0 depth 1;`; for a constant write its number, or a function",
        Hint::NoValue => b"a variable has a first value, as in `int n = 0;`",
        Hint::NameAlone => b"a name is no statement: assign to it, as in `v = 1;`",
        Hint::NoResult =>
            b"a function gives a value, as in `return 0;`; a `body` has no `return`: what an action does ends at its `advance`",
        Hint::Chain =>
            b"an assignment has no value: write a statement for each variable; a comparison is written `==`",
        Hint::LoopComparison =>
            b"a comparison is written `==`; `=` assigns, in statements of their own: one before the loop, and one at the end of what it repeats",
        Hint::Comparison =>
            b"a comparison is written `==`; `=` assigns, in a statement of its own before this one, as in `n = take(s);`",
        Hint::Assignment => b"an assignment is written `=`",
        Hint::OneByOne =>
            b"a declaration has one name, and a statement one assignment: end it with `;`, and begin another",
        Hint::Call => b"a call is no statement: give its value to a variable, as in `v = f(..);`",
        Hint::Prototype =>
            b"a function is declared with its statements, as in `int f(int a) { return a; }`",
        Hint::LeaveOut => b"leave this out: behind it the program goes on",
        Hint::EmptyCondition => b"behind a condition stands `{`: leave this `;` out",
        Hint::BodyMissing =>
            b"the statements of an agent stand in a `body { .. }` behind its variables, and none is here",
        Hint::Extra => b"this bracket closes none that is open: leave it out",
        Hint::Braces =>
            b"statements under a condition stand in braces, also where there is one alone",
        Hint::After =>
            b"behind `after` stands a number, that of the dates by which the message is delayed, which may be 0",
        Hint::NoStatement => b"there is no empty statement: leave this `;` out",
        Hint::Ended =>
            b"the agent or the function above ends before this: a `}` further up is one too many",
        Hint::Outside =>
            b"a declaration begins with `clock`, `temporal`, `input`, `stream`, `agent` or `int`; statements stand in the `body` of an agent or in a function",
        Hint::Repeats =>
            b"the statements of an agent stand in `body { .. }`, which begins again by itself: it needs no loop around it",
        Hint::NoBody => b"the statements of an agent stand in `body { .. }`",
        Hint::BodyEnded =>
            b"the `body` of this agent ends before this: a `}` further up is one too many",
        Hint::SecondTick => b"a program has one `tick`, which is its beginning: leave this one out",
        Hint::SecondBody => b"an agent has one `body`: put all its statements into that",
        Hint::InsideAgent =>
            b"in an agent stand variables and arrays, and its `body`: put this declaration above the agent",
        Hint::Back =>
            b"`past` has a number behind the name, of how many dates back: `past(v, 0)` is the last one",
        Hint::Close => b"a `}` is missing before this",
        Hint::ElseAlone => b"an `else` stands directly behind the `}` of its `if`",
        Hint::Semicolon => b"a `;` is missing before this",
        Hint::Missing => b"",
        Hint::Block =>
            b"a block stands behind a condition or `else` alone: leave this `{` and its `}` out",
        Hint::LookName =>
            b"`past`, `ready` and `take` have a name alone in their brackets, as in `past(v, 0) + 1`",
        Hint::Cast =>
            b"a cast has the value in brackets behind the type, as in `int8(v)`; the types are `int8`, `int16`, `int32`, `int64` and `int`",
        Hint::ReservedCall =>
            b"this word is reserved, and no function has it as its name: declare one of another name, as in `int larger(int a, int b) { .. }`",
        Hint::Reserved => b"this word is reserved, and can't be a name: choose another",
        Hint::Brackets =>
            b"what is looked at stands in brackets: `past(v, 0)`, `ready(s)`, `take(s)`",
        Hint::Round => b"a `)` is missing before this",
        Hint::MaxAlone | Hint::AdvanceAlone => b"",
        Hint::Signed =>
            b"here stands a number alone, and without a sign: it tells how many, and is never below 0",
        Hint::NumberAlone => b"here stands a number alone, and neither a name nor an expression",
        Hint::SemicolonAtEnd => b"a `;` is missing before this",
        Hint::FunctionArray => b"arrays stand in an agent, before its `body`: a function has none",
        Hint::Period =>
            b"a clock has its period behind its name: `=`, a number, `*`, and `tick` or a clock above, as in `clock c = 10 * tick;`",
        Hint::FirstTemporal =>
            b"behind its clock a temporal variable has a first value and a depth, as in `temporal v of A on c = 0 depth 1;`",
        Hint::FirstInput =>
            b"behind its clock an input has a first value and a depth, as in `input x on c = 0 depth 1;`",
        Hint::Depth =>
            b"behind the first value stands `depth`, with the number of values that `past` can reach, as in `= 0 depth 1;`",
        Hint::FormTick => b"a program begins as in `tick 100;`, with the cycles of a tick",
        Hint::NoSemicolon => b"behind `{`, `}` and `;` stands no `;`: leave this one out",
        Hint::FormClock =>
            b"a clock is declared as in `clock c = 10 * tick;`, or with a shift, as in `clock d = 5 * c + 2;`",
        Hint::FormTemporal =>
            b"a temporal variable is declared as in `temporal v of A on c = 0 depth 1;`",
        Hint::FormInput => b"an input is declared as in `input x on c = 0 depth 1;`",
        Hint::FormStream => b"a stream is declared as in `stream s to A keep 1 on c;`",
        Hint::FormAgent =>
            b"an agent is declared as in `agent A on c budget 90 { int n = 0; body { n = n + 1; advance 1 on c; } }`; `processor 1` may stand before `budget`",
        Hint::FormInt =>
            b"`int` begins a function, as in `int f(int a, int b) { return a; }`, a variable, as in `int n = 0;`, and in an agent an array, as in `int a[4];`",
        Hint::FormType =>
            b"a type begins a variable, as in `int8 n = 0;`, and in an agent an array, as in `int8 a[4];`",
        Hint::FormIf => b"an `if` is written as in `if (v > 0) { v = 0; } else { v = 1; }`",
        Hint::FormWhile => b"a loop is written as in `while (v > 0) max 10 { v = v - 1; }`",
        Hint::FormSend => b"a message is sent as in `send v to s after 0 on c;`",
        Hint::FormAdvance =>
            b"time passes as in `advance 1 on c;`, with a budget as in `advance 1 on c budget 90;`",
        Hint::FormAssign =>
            b"a statement that begins with a name is an assignment, as in `v = 1;` or `a[0] = 1;`",
    }
}
