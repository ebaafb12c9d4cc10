//! Groups of terminals that are told as one.
ghost use Rattle.std.specs.Prelude.{◌≡◌};
ghost use Rattle.psy_expect.specs.Phrases.{are_told, group_of, group_words, has, lead, members, same, stands};

use crate::terminal::Terminal;
use psy_tree::{Sign, Word};

/// A group of terminals: those with which a declaration, a statement or an expression begins, the operators, or the words of types.
#[derive(Clone, Copy, Debug, PartialEq, Eq)]
pub enum Group {
    Declaration,
    Statement,
    Expression,
    Operator,
    TypeName,
}

const GROUPS: [Group; 5] = [
    Group::Declaration,
    Group::Statement,
    Group::Expression,
    Group::Operator,
    Group::TypeName,
];

const DECLARATION: [Terminal; 6] = [
    Terminal::Word(Word::Agent),
    Terminal::Word(Word::Clock),
    Terminal::Word(Word::Input),
    Terminal::Word(Word::Int),
    Terminal::Word(Word::Stream),
    Terminal::Word(Word::Temporal),
];

const STATEMENT: [Terminal; 6] = [
    Terminal::Word(Word::Advance),
    Terminal::Word(Word::If),
    Terminal::Word(Word::Return),
    Terminal::Word(Word::Send),
    Terminal::Word(Word::While),
    Terminal::Name,
];

const EXPRESSION: [Terminal; 14] = [
    Terminal::Word(Word::Int),
    Terminal::Word(Word::Int8),
    Terminal::Word(Word::Int16),
    Terminal::Word(Word::Int32),
    Terminal::Word(Word::Int64),
    Terminal::Word(Word::Past),
    Terminal::Word(Word::Ready),
    Terminal::Word(Word::Take),
    Terminal::Name,
    Terminal::Number,
    Terminal::Sign(Sign::OpenRound),
    Terminal::Sign(Sign::Minus),
    Terminal::Sign(Sign::Tilde),
    Terminal::Sign(Sign::Bang),
];

const OPERATOR: [Terminal; 18] = [
    Terminal::Sign(Sign::Plus),
    Terminal::Sign(Sign::Minus),
    Terminal::Sign(Sign::Star),
    Terminal::Sign(Sign::Slash),
    Terminal::Sign(Sign::Percent),
    Terminal::Sign(Sign::ShiftLeft),
    Terminal::Sign(Sign::ShiftRight),
    Terminal::Sign(Sign::Less),
    Terminal::Sign(Sign::LessEqual),
    Terminal::Sign(Sign::Greater),
    Terminal::Sign(Sign::GreaterEqual),
    Terminal::Sign(Sign::Equal),
    Terminal::Sign(Sign::NotEqual),
    Terminal::Sign(Sign::Amp),
    Terminal::Sign(Sign::Caret),
    Terminal::Sign(Sign::Bar),
    Terminal::Sign(Sign::AmpAmp),
    Terminal::Sign(Sign::BarBar),
];

const TYPE_NAMES: [Terminal; 5] = [
    Terminal::Word(Word::Int),
    Terminal::Word(Word::Int8),
    Terminal::Word(Word::Int16),
    Terminal::Word(Word::Int32),
    Terminal::Word(Word::Int64),
];

/// The terminals of a group.
pub fn members(group: Group) -> &'static [Terminal]
    ensures { result.now ≡ members group }
{
    match group {
        Group::Declaration => &DECLARATION,
        Group::Statement => &STATEMENT,
        Group::Expression => &EXPRESSION,
        Group::Operator => &OPERATOR,
        Group::TypeName => &TYPE_NAMES,
    }
}

/// A group's words.
pub fn group_words(group: Group) -> &'static [u8]
    ensures { result.now ≡ group_words group }
{
    match group {
        Group::Declaration => b"a declaration",
        Group::Statement => b"a statement",
        Group::Expression => b"an expression",
        Group::Operator => b"an operator",
        Group::TypeName => b"a type",
    }
}

/// The terminal that is told for its whole group.
pub fn lead(group: Group) -> Terminal
    ensures { result ≡ lead group }
{
    match group {
        Group::Declaration => Terminal::Word(Word::Agent),
        Group::Statement => Terminal::Word(Word::Advance),
        Group::Expression => Terminal::Word(Word::Past),
        Group::Operator => Terminal::Sign(Sign::Plus),
        Group::TypeName => Terminal::Word(Word::Int),
    }
}

/// Are two terminals one?
pub fn same(one: Terminal, other: Terminal) -> bool
    ensures { result ≡ same one other }
{
    match (one, other) {
        (Terminal::Word(one), Terminal::Word(other)) => one == other,
        (Terminal::Name, Terminal::Name) | (Terminal::Number, Terminal::Number) => true,
        (Terminal::Sign(one), Terminal::Sign(other)) => one == other,
        _ => false,
    }
}

/// Is the terminal among these?
pub fn has(told: &[Terminal], terminal: Terminal) -> bool
    ensures { result ≡ has told.now terminal }
{
    told.iter().any(|here| same(*here, terminal))
}

fn stands(told: &[Terminal], terminal: Terminal, group: Group) -> bool
    ensures { result ≡ stands told.now terminal group }
{
    let members = members(group);
    are_told(told, members) && has(members, terminal)
}

// Are all of these among those that are told?
fn are_told(told: &[Terminal], terminals: &[Terminal]) -> bool
    ensures { result ≡ are_told told.now terminals.now }
{
    terminals.iter().all(|terminal| has(told, *terminal))
}

/// The first group that has the terminal, and all of which is told.
#[tactic(auto, unfolding(crate::specs::Phrases::group_of))]
pub fn group_of(told: &[Terminal], terminal: Terminal) -> Option<Group>
    ensures { result ≡ group_of told.now terminal }
{
    GROUPS
        .iter()
        .copied()
        .find(|group| stands(told, terminal, *group))
}
