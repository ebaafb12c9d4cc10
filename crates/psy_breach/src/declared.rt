//! Declarations among tokens: each is seen as the tokens from its first on.
ghost use Rattle.std.specs.Prelude.{◌≡◌, ℕ};
ghost use Rattle.std.specs.Option.{option_copied};
ghost use Rattle.psy_breach.specs.Declarations.{declares, earlier, first_declared, is_function, is_head, is_like, is_local, is_same, last_head};
ghost use Rattle.psy_breach.specs.Declarations.{name_of, place_of, reached, reaches, sort_at, sort_of, sort_of_kinds, sort_of_typed, sort_of_word};

use crate::token::{is_sign, name_at};
use psy_near::is_near;
use psy_tree::{Kind, Sign, Token, Word};

/// What a declaration declares: one in the whole program, or an array or a variable inside an agent or a function, parameters among them.
#[derive(Clone, Copy, Debug, PartialEq, Eq)]
pub enum Sort {
    Clock,
    Temporal,
    Input,
    Stream,
    Agent,
    Function,
    Array,
    Variable,
}

/// Which declarations are looked at: those of the whole program, those inside agents and functions, or all.
#[derive(Clone, Copy, Debug, PartialEq, Eq)]
pub enum Reach {
    Whole,
    Inside,
    Every,
}

/// How a declared name is to be like a name: the same, or nearly so.
#[derive(Clone, Copy, Debug, PartialEq, Eq)]
pub enum How {
    Same,
    Near,
}

/// What is declared with these tokens, where a declaration begins with them.
pub fn sort_of(tokens: &[Token]) -> Option<Sort>
    ensures { result ≡ sort_of tokens.now }
{
    match tokens {
        [word, name, more @ ..] => sort_of_kinds(&word.kind, &name.kind, more.first()),
        _ => None,
    }
}

/// What is declared by the token before some tokens, and these.
pub fn sort_at(word: Option<&Token>, tokens: &[Token]) -> Option<Sort>
    ensures { result ≡ sort_at (option_copied word.entry) tokens.now }
{
    match (word, tokens) {
        (Some(word), [name, more @ ..]) => sort_of_kinds(&word.kind, &name.kind, more.first()),
        _ => None,
    }
}

fn sort_of_kinds(word: &Kind, name: &Kind, third: Option<&Token>) -> Option<Sort>
    ensures { result ≡ sort_of_kinds word.now name.now (option_copied third.entry) }
{
    match (word, name) {
        (Kind::Word(word), Kind::Name(_)) => sort_of_word(*word, third),
        _ => None,
    }
}

fn sort_of_word(word: Word, third: Option<&Token>) -> Option<Sort>
    ensures { result ≡ sort_of_word word (option_copied third.entry) }
{
    match word {
        Word::Clock => Some(Sort::Clock),
        Word::Temporal => Some(Sort::Temporal),
        Word::Input => Some(Sort::Input),
        Word::Stream => Some(Sort::Stream),
        Word::Agent => Some(Sort::Agent),
        Word::Int | Word::Int8 | Word::Int16 | Word::Int32 | Word::Int64 => Some(sort_of_typed(
            third,
        )),
        _ => None,
    }
}

fn sort_of_typed(third: Option<&Token>) -> Sort
    ensures { result ≡ sort_of_typed (option_copied third.entry) }
{
    if is_sign(third, Sign::OpenRound) {
        Sort::Function
    } else if is_sign(third, Sign::OpenSquare) {
        Sort::Array
    } else {
        Sort::Variable
    }
}

/// Does it stand inside an agent or a function?
pub fn is_local(sort: Sort) -> bool
    ensures { result ≡ is_local sort }
{
    matches!(sort, Sort::Array | Sort::Variable)
}

/// Is it a function?
pub fn is_function(sort: Option<Sort>) -> bool
    ensures { result ≡ is_function sort }
{
    matches!(sort, Some(Sort::Function))
}

/// The name that is declared.
pub fn name_of(tokens: &[Token]) -> &[u8]
    ensures { result.now ≡ name_of tokens.now }
{
    match tokens {
        [_, name, ..] => name_at(Some(name)),
        _ => b"",
    }
}

/// The byte at which a declaration begins.
pub fn place_of(tokens: &[Token]) -> u32
    ensures { result ≡ place_of tokens.now }
{
    match tokens {
        [first, ..] => first.place,
        [] => 0,
    }
}

fn is_like(how: How, name: &[u8], other: &[u8]) -> bool
    ensures { result ≡ is_like how name.now other.now }
{
    match how {
        How::Same => name == other,
        How::Near => is_near(name, other),
    }
}

fn reaches(reach: Reach, sort: Sort) -> bool
    ensures { result ≡ reaches reach sort }
{
    match reach {
        Reach::Whole => !is_local(sort),
        Reach::Inside => is_local(sort),
        Reach::Every => true,
    }
}

fn declares(reach: Reach, how: How, name: &[u8], tokens: &[Token]) -> bool
    ensures { result ≡ declares reach how name.now tokens.now }
{
    sort_of(tokens).is_some_and(|sort| reaches(reach, sort)) && is_like(how, name, name_of(tokens))
}

/// The first declaration of a name among tokens, or of one like it.
pub fn first_declared<'a>(
    reach: Reach,
    how: How,
    name: &[u8],
    tokens: &'a [Token],
) -> Option<&'a [Token]>
    ensures { option_copied result ≡ first_declared reach how name.now tokens.now }
{
    let mut rest = tokens;
    'each: while let [_, more @ ..] = rest {
        if declares(reach, how, name, rest) {
            return Some(rest);
        }
        rest = more;
    }
    None
}

fn is_head(tokens: &[Token]) -> bool
    ensures { result ≡ is_head tokens.now }
{
    sort_of(tokens).is_some_and(|sort| !is_local(sort))
}

/// The last declaration of the whole program among tokens, and what follows it; none of the tokens where there is none.
pub fn last_head(tokens: &[Token]) -> &[Token]
    ensures { result.now ≡ last_head tokens.now }
{
    let mut found: &[Token] = &[];
    let mut rest = tokens;
    'each: while let [_, more @ ..] = rest {
        if is_head(rest) {
            found = rest;
        }
        rest = more;
    }
    found
}

/// The declaration that stands first in the text.
pub fn earlier<'a>(one: Option<&'a [Token]>, other: Option<&'a [Token]>) -> Option<&'a [Token]>
    ensures { option_copied result ≡ earlier (option_copied one.entry) (option_copied other.entry) }
{
    match (one, other) {
        (Some(one), Some(other)) => {
            if place_of(other) < place_of(one) {
                Some(other)
            } else {
                Some(one)
            }
        }
        (Some(one), None) => Some(one),
        (None, other) => other,
    }
}

/// The first declaration in reach of a place of the name that stands there, or of one like it: of those of the whole program, and of those inside the agent
/// or function to which the place belongs, `front` being the tokens before it.
pub fn reached<'a>(
    how: How,
    name: &[u8],
    tokens: &'a [Token],
    front: &'a [Token],
) -> Option<&'a [Token]>
    ensures { option_copied result ≡ reached how name.now tokens.now front.now }
{
    let whole = first_declared(Reach::Whole, how, name, tokens);
    let inside = first_declared(Reach::Inside, how, name, last_head(front));
    earlier(whole, inside)
}

/// Do two declarations begin at one byte?
pub fn is_same(one: &[Token], other: &[Token]) -> bool
    ensures { result ≡ is_same one.now other.now }
{
    place_of(one) == place_of(other)
}
