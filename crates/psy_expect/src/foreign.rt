//! Names that are words of other languages, or reserved words in other case.
ghost use Rattle.std.specs.Prelude.{◌≡◌};
ghost use Rattle.psy_expect.specs.Foreigns.{foreign_of, is_in_small, is_kind_type, is_operator, is_print, is_signed_type, is_spelled};
ghost use Rattle.psy_expect.specs.Foreigns.{is_type, is_unsigned_type, small_of};

use crate::terminal::{EVERY, Terminal};
use psy_token::word_spelling;

/// Words of other languages, by what is told of them.
#[derive(Clone, Copy, Debug, PartialEq, Eq)]
pub enum Foreign {
    /// `for`
    For,
    /// Other words for loops.
    Loop,
    /// `break` and its kin.
    Jump,
    /// `switch` and its kin.
    Switch,
    /// Words for types.
    TypeWord,
    /// `const` and its kin.
    Constant,
    /// `enum`
    Enumeration,
    /// `static` and its kin.
    Modifier,
    /// `void`
    Void,
    /// Words that begin a function.
    Function,
    /// `elif` and its kin.
    ElseIf,
    /// `then`
    Then,
    /// `times`
    Times,
    /// `and`, `or` and their kin.
    Logical,
    /// Words that let time pass.
    Wait,
    /// Words that print.
    Print,
    /// `struct` and its kin.
    Structure,
    /// `extern` and its kin.
    External,
    /// `sizeof`
    Size,
}

const FOREIGN: [Foreign; 19] = [
    Foreign::For,
    Foreign::Loop,
    Foreign::Jump,
    Foreign::Switch,
    Foreign::TypeWord,
    Foreign::Constant,
    Foreign::Enumeration,
    Foreign::Modifier,
    Foreign::Void,
    Foreign::Function,
    Foreign::ElseIf,
    Foreign::Then,
    Foreign::Times,
    Foreign::Logical,
    Foreign::Wait,
    Foreign::Print,
    Foreign::Structure,
    Foreign::External,
    Foreign::Size,
];

/// What word of another language a name is.
pub fn foreign_of(name: &[u8]) -> Option<Foreign>
    ensures { result ≡ foreign_of name.now }
{
    FOREIGN
        .iter()
        .copied()
        .find(|foreign| is_spelled(*foreign, name))
}

fn is_spelled(foreign: Foreign, name: &[u8]) -> bool
    ensures { result ≡ is_spelled foreign name.now }
{
    match foreign {
        Foreign::For => name == b"for".as_slice() || name == b"foreach".as_slice(),
        Foreign::Loop => {
            name == b"do".as_slice()
                || (name == b"loop".as_slice()
                    || (name == b"forever".as_slice()
                        || (name == b"repeat".as_slice() || name == b"until".as_slice())))
        }
        Foreign::Jump => {
            name == b"break".as_slice()
                || (name == b"continue".as_slice()
                    || (name == b"exit".as_slice() || name == b"goto".as_slice()))
        }
        Foreign::Switch => {
            name == b"switch".as_slice()
                || (name == b"case".as_slice() || name == b"default".as_slice())
        }
        Foreign::TypeWord => is_type(name),
        Foreign::Constant => name == b"const".as_slice() || name == b"constexpr".as_slice(),
        Foreign::Enumeration => name == b"enum".as_slice(),
        Foreign::Modifier => {
            name == b"static".as_slice()
                || (name == b"volatile".as_slice()
                    || (name == b"let".as_slice() || name == b"var".as_slice()))
        }
        Foreign::Void => name == b"void".as_slice(),
        Foreign::Function => {
            name == b"function".as_slice()
                || (name == b"def".as_slice()
                    || (name == b"fn".as_slice() || name == b"func".as_slice()))
        }
        Foreign::ElseIf => {
            name == b"elif".as_slice()
                || (name == b"elsif".as_slice() || name == b"elseif".as_slice())
        }
        Foreign::Then => name == b"then".as_slice(),
        Foreign::Times => name == b"times".as_slice(),
        Foreign::Logical => is_operator(name),
        Foreign::Wait => {
            name == b"wait".as_slice()
                || (name == b"delay".as_slice()
                    || (name == b"sleep".as_slice() || name == b"pause".as_slice()))
        }
        Foreign::Print => is_print(name),
        Foreign::Structure => {
            name == b"struct".as_slice()
                || (name == b"union".as_slice()
                    || (name == b"class".as_slice() || name == b"typedef".as_slice()))
        }
        Foreign::External => {
            name == b"extern".as_slice()
                || (name == b"import".as_slice()
                    || (name == b"include".as_slice() || name == b"using".as_slice()))
        }
        Foreign::Size => name == b"sizeof".as_slice(),
    }
}

fn is_type(name: &[u8]) -> bool
    ensures { result ≡ is_type name.now }
{
    is_kind_type(name) || (is_signed_type(name) || is_unsigned_type(name))
}

fn is_kind_type(name: &[u8]) -> bool
    ensures { result ≡ is_kind_type name.now }
{
    name == b"float".as_slice()
        || (name == b"double".as_slice()
            || (name == b"bool".as_slice()
                || (name == b"boolean".as_slice()
                    || (name == b"char".as_slice()
                        || (name == b"long".as_slice()
                            || (name == b"short".as_slice()
                                || (name == b"unsigned".as_slice()
                                    || (name == b"signed".as_slice()
                                        || (name == b"integer".as_slice()
                                            || (name == b"string".as_slice()
                                                || (name == b"uint".as_slice()
                                                    || name == b"size_t".as_slice())))))))))))
}

fn is_signed_type(name: &[u8]) -> bool
    ensures { result ≡ is_signed_type name.now }
{
    name == b"int8_t".as_slice()
        || (name == b"int16_t".as_slice()
            || (name == b"int32_t".as_slice()
                || (name == b"int64_t".as_slice()
                    || (name == b"i8".as_slice()
                        || (name == b"i16".as_slice()
                            || (name == b"i32".as_slice() || name == b"i64".as_slice()))))))
}

fn is_unsigned_type(name: &[u8]) -> bool
    ensures { result ≡ is_unsigned_type name.now }
{
    name == b"uint8_t".as_slice()
        || (name == b"uint16_t".as_slice()
            || (name == b"uint32_t".as_slice()
                || (name == b"uint64_t".as_slice()
                    || (name == b"uint8".as_slice()
                        || (name == b"uint16".as_slice()
                            || (name == b"uint32".as_slice()
                                || (name == b"uint64".as_slice()
                                    || (name == b"u8".as_slice()
                                        || (name == b"u16".as_slice()
                                            || (name == b"u32".as_slice()
                                                || name == b"u64".as_slice()))))))))))
}

fn is_print(name: &[u8]) -> bool
    ensures { result ≡ is_print name.now }
{
    name == b"print".as_slice()
        || (name == b"printf".as_slice()
            || (name == b"println".as_slice()
                || (name == b"puts".as_slice()
                    || (name == b"echo".as_slice() || name == b"write".as_slice()))))
}

fn is_operator(name: &[u8]) -> bool
    ensures { result ≡ is_operator name.now }
{
    name.eq_ignore_ascii_case(b"and")
        || (name.eq_ignore_ascii_case(b"or")
            || (name.eq_ignore_ascii_case(b"not")
                || (name.eq_ignore_ascii_case(b"mod") || name.eq_ignore_ascii_case(b"xor"))))
}

/// The reserved word that a name would be in small letters.
pub fn small_of(name: &[u8]) -> Option<Terminal>
    ensures { result ≡ small_of name.now }
{
    EVERY
        .iter()
        .copied()
        .find(|terminal| is_in_small(*terminal, name))
}

fn is_in_small(terminal: Terminal, name: &[u8]) -> bool
    ensures { result ≡ is_in_small terminal name.now }
{
    match terminal {
        Terminal::Word(word) => word_spelling(word).eq_ignore_ascii_case(name),
        Terminal::Name | Terminal::Number | Terminal::Sign(_) => false,
    }
}
