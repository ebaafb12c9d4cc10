//! What each refusal means, in a sentence.
ghost use Rattle.std.specs.Prelude.{◌≡◌};
ghost use Rattle.std.specs.Option.{option_copied};
ghost use Rattle.psy_where.specs.declared.recall.What.{What};
ghost use Rattle.psy_where.specs.Refusals.{sentence_of};

use crate::recall::What;

/// What a refusal of this number means. None exactly where psyc writes no such refusal.
pub fn sentence(what: What, number: u32) -> Option<&'static [u8]>
    ensures { option_copied result ≡ sentence_of what number }
{
    match what {
        What::Lex => lexing(number),
        What::Parse => parsing(number),
        What::Rule => rule(number),
        What::Inputs => inputs(number),
        What::Script => script(number),
    }
}

fn lexing(number: u32) -> Option<&'static [u8]>
    ensures { option_copied result ≡ sentence_of What.Lex number }
{
    match number {
        1 => Some(b"this byte can't stand here"),
        2 => Some(b"this word has more than 32 bytes"),
        3 => Some(b"this number is above 2147483647"),
        4 => Some(b"this comment has no end"),
        _ => None,
    }
}

fn parsing(number: u32) -> Option<&'static [u8]>
    ensures { option_copied result ≡ sentence_of What.Parse number }
{
    match number {
        1 => Some(
            b"no program goes on like this: something is missing before it, as a `;`, or it can't stand here, as a reserved word",
        ),
        2 => Some(
            b"64 brackets are open here, or 256 operators stand since the last `;`, `{` or `}`",
        ),
        _ => None,
    }
}

fn rule(number: u32) -> Option<&'static [u8]>
    ensures { option_copied result ≡ sentence_of What.Rule number }
{
    match number {
        1 => Some(b"this name is declared already"),
        2 => Some(b"no declaration of this name is in reach here"),
        3 => Some(b"this can't stand here"),
        4 => Some(b"this variable is another agent's: only `past` looks at it"),
        5 => Some(b"this agent doesn't receive that stream"),
        6 => Some(b"`past` reaches back beyond the depth of the variable"),
        7 => Some(b"this loop has no `max` and no `advance`, so it might never end"),
        8 => Some(
            b"a loop has either a `max` and no `advance`, or no `max` and an `advance` on each way round",
        ),
        9 => Some(b"a path through this body meets no `advance`"),
        10 => Some(b"this function isn't declared above the one that calls it"),
        11 => Some(b"a number of this clock isn't allowed"),
        12 => Some(b"this number is out of its range"),
        _ => None,
    }
}

fn inputs(number: u32) -> Option<&'static [u8]>
    ensures { option_copied result ≡ sentence_of What.Inputs number }
{
    match number {
        1 => Some(b"this line isn't the name of an input and its values"),
        2 => Some(b"the program has no input of this name"),
        3 => Some(b"this input has its values from an earlier line"),
        4 => Some(b"a value isn't one of 32 bits"),
        _ => None,
    }
}

fn script(number: u32) -> Option<&'static [u8]>
    ensures { option_copied result ≡ sentence_of What.Script number }
{
    match number {
        1 => Some(b"this line is no stall, no order and no round"),
        2 => Some(b"the program has no agent of this name"),
        3 => Some(b"an earlier line says this already, or an agent or a processor is named twice"),
        4 => Some(b"a number is out of its range"),
        _ => None,
    }
}
