//! What is told of a name that is declared twice, that isn't declared, or that is another agent's.
ghost use Rattle.std.specs.Prelude.{◌≡◌};
ghost use Rattle.std.specs.Option.{option_copied};
ghost use Rattle.psy_breach.specs.Names.{calls_told, cased_word, first_named, foreign, is_inside, is_operator_name, is_truth, lack_words};
ghost use Rattle.psy_breach.specs.Names.{near_declared, near_word, nearly, owner_told, receiver_told, unknown_told, way_here};
ghost use Rattle.psy_page.specs.Told.{said};

use crate::declared::{
    How, Reach, Sort, first_declared, is_function, is_local, is_same, last_head, name_of, reached,
    sort_at, sort_of,
};
use crate::role::{Role, is_called, role_of};
use crate::sentences as words;
use crate::token::{before, name_at};
use crate::told::{declared, declared_as};
use psy_near::is_near;
use psy_page::Piece::Raw;
use psy_page::{Told, first_told};
use psy_token::word_spelling;
use psy_tree::{Token, Word};

/// The reserved words that stand where names do, or before them.
pub const NEAR_NAMES: [Word; 4] = [Word::Past, Word::Ready, Word::Take, Word::Tick];

/// The earlier declaration of a name that is declared again: of one of the whole program any, of one inside an agent or a function one in reach.
pub fn first_named<'a>(front: &'a [Token], back: &[Token]) -> Option<&'a [Token]>
    ensures { option_copied result ≡ first_named front.now back.now }
{
    let name = name_at(back.first());
    if is_inside(front, back) {
        reached(How::Same, name, front, front)
    } else {
        first_declared(Reach::Every, How::Same, name, front)
    }
}

// Does the name stand in a declaration inside an agent or a function?
fn is_inside(front: &[Token], back: &[Token]) -> bool
    ensures { result ≡ is_inside front.now back.now }
{
    sort_at(before(front, 1), back).is_some_and(is_local)
}

/// What is known of a name that isn't declared, or further below than it should.
pub fn unknown_told<'a>(
    text: &[u8],
    tokens: &'a [Token],
    front: &'a [Token],
    back: &'a [Token],
    found: Option<&'a [Token]>,
) -> Option<Told<'a>>
    ensures { said result ≡ unknown_told text.now tokens.now front.now back.now (option_copied found.entry) }
{
    let name = name_at(back.first());
    let here = sort_of(last_head(front));
    let inside = first_declared(Reach::Inside, How::Same, name, tokens);
    first_told(&[
        declared(text, name, found, words::BELOW),
        foreign(name, role_of(front, back)),
        nearly(name, cased_word(name)),
        near_declared(text, reached(How::Near, name, tokens, front)),
        nearly(name, near_word(name)),
        declared(text, name, inside, way_here(here)),
        Some(Told::One(lack_words(role_of(front, back)), Raw(name))),
    ])
}

// What is told of a word that other languages have.
fn foreign<'a>(name: &[u8], role: Role) -> Option<Told<'a>>
    ensures { said result ≡ foreign name.now role }
{
    if is_truth(name) {
        Some(Told::Plain(words::TRUTHS))
    } else if name == b"sizeof".as_slice() {
        Some(Told::Plain(words::SIZES))
    } else if is_called(role) && is_operator_name(name) {
        Some(Told::Plain(words::OPERATORS))
    } else {
        None
    }
}

fn is_truth(name: &[u8]) -> bool
    ensures { result ≡ is_truth name.now }
{
    name.eq_ignore_ascii_case(b"true") || name.eq_ignore_ascii_case(b"false")
}

fn is_operator_name(name: &[u8]) -> bool
    ensures { result ≡ is_operator_name name.now }
{
    name.eq_ignore_ascii_case(b"and")
        || (name.eq_ignore_ascii_case(b"or")
            || (name.eq_ignore_ascii_case(b"not") || name.eq_ignore_ascii_case(b"mod")))
}

// The reserved word that a name is in other case.
fn cased_word(name: &[u8]) -> Option<Word>
    ensures { result ≡ cased_word name.now }
{
    NEAR_NAMES
        .iter()
        .copied()
        .find(|word| name.eq_ignore_ascii_case(word_spelling(*word)))
}

// The first of the reserved words before and in values that a name is nearly.
fn near_word(name: &[u8]) -> Option<Word>
    ensures { result ≡ near_word name.now }
{
    NEAR_NAMES
        .iter()
        .copied()
        .find(|word| is_near(name, word_spelling(*word)))
}

fn nearly(name: &[u8], word: Option<Word>) -> Option<Told<'_>>
    ensures { said result ≡ nearly name.now word }
{
    Some(Told::Two(words::NEARLY, Raw(name), Raw(word_spelling(word?))))
}

// What is told of a declaration of a name that is nearly the same.
fn near_declared<'a>(text: &[u8], declaration: Option<&'a [Token]>) -> Option<Told<'a>>
    ensures { said result ≡ near_declared text.now (option_copied declaration.entry) }
{
    let declaration = declaration?;
    Some(declared_as(text, name_of(declaration), declaration, words::MEANT))
}

// How to come by what is declared inside another agent or function.
fn way_here(here: Option<Sort>) -> &'static [u8]
    ensures { result.now ≡ way_here here }
{
    if is_function(here) {
        words::OUT_OF_FUNCTION
    } else {
        words::OUT_OF_AGENT
    }
}

// What to declare.
fn lack_words(role: Role) -> &'static [u8]
    ensures { result.now ≡ lack_words role }
{
    match role {
        Role::Clock | Role::Parent => words::NO_CLOCK,
        Role::Agent => words::NO_AGENT,
        Role::Target | Role::Messages => words::NO_STREAM,
        Role::Past => words::NO_TEMPORAL,
        Role::Function => words::NO_FUNCTION,
        Role::Cell => words::NO_ARRAY,
        Role::Assigned | Role::Value => words::NO_VARIABLE,
    }
}

/// Whose a temporal variable is, by its declaration, and what to do.
pub fn owner_told<'a>(name: &'a [u8], role: Role, found: Option<&'a [Token]>) -> Option<Told<'a>>
    ensures { said result ≡ owner_told name.now role (option_copied found.entry) }
{
    let owner = Raw(name_at(found?.get(3)));
    let name = Raw(name);
    match role {
        Role::Assigned => Some(Told::Two(words::OWNED, name, owner)),
        _ => Some(Told::Three(words::LOOKED, name, owner, name)),
    }
}

/// Who receives a stream, by its declaration.
pub fn receiver_told<'a>(name: &'a [u8], found: Option<&'a [Token]>) -> Option<Told<'a>>
    ensures { said result ≡ receiver_told name.now (option_copied found.entry) }
{
    let receiver = name_at(found?.get(3));
    Some(Told::Two(words::RECEIVED, Raw(name), Raw(receiver)))
}

/// Where a function stands that is called from above it, or that it calls itself.
pub fn calls_told<'a>(
    text: &[u8],
    name: &'a [u8],
    caller: &[Token],
    found: Option<&[Token]>,
) -> Option<Told<'a>>
    ensures { said result ≡ calls_told text.now name.now caller.now (option_copied found.entry) }
{
    let declaration = found?;
    if is_same(declaration, caller) {
        Some(Told::One(words::ITSELF, Raw(name)))
    } else {
        Some(declared_as(text, name, declaration, words::ABOVE))
    }
}
