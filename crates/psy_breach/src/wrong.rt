//! What is told of a name of another sort than its place asks for, and of a word that stands elsewhere.
ghost use Rattle.std.specs.Prelude.{◌≡◌, ◌≤◌};
ghost use Rattle.std.specs.Option.{option_copied};
ghost use Rattle.psy_breach.specs.Wrong.{assigned_way, is_shared, is_unseen, is_value, of_type, parameters, value_way};
ghost use Rattle.psy_breach.specs.Wrong.{way, words_of_type, wrong_name, wrong_told, wrong_word};
ghost use Rattle.psy_page.specs.Told.{said, sentence};

use crate::declared::{Sort, is_function, last_head, sort_of};
use crate::role::{Role, is_called, role_of};
use crate::sentences as words;
use crate::token::{is_sign, is_word};
use crate::told::declared_as;
use psy_page::Piece::{Long, Raw};
use psy_page::Told;
use psy_tree::{Kind, Sign, Token, Word};

/// What a name is, and what its place asks for; of a word, where it may stand.
pub fn wrong_told<'a>(
    text: &[u8],
    front: &[Token],
    back: &'a [Token],
    found: Option<&[Token]>,
) -> Option<Told<'a>>
    ensures { said result ≡ wrong_told text.now front.now back.now (option_copied found.entry) }
{
    match &back.first()?.kind {
        Kind::Name(name) => Some(wrong_name(
            text,
            name.bytes(),
            found?,
            sort_of(last_head(front)),
            role_of(front, back),
        )),
        Kind::Word(word) => Some(Told::Plain(wrong_word(*word))),
        _ => None,
    }
}

fn wrong_word(word: Word) -> &'static [u8]
    ensures { result.now ≡ wrong_word word }
{
    match word {
        Word::Return => words::RETURN,
        _ => words::IN_AGENTS,
    }
}

// What is told of a name that has this declaration, in what is declared so.
fn wrong_name<'a>(
    text: &[u8],
    name: &'a [u8],
    declaration: &[Token],
    here: Option<Sort>,
    role: Role,
) -> Told<'a>
    ensures { sentence result ≡ wrong_name text.now name.now declaration.now here role }
{
    let sort = sort_of(declaration);
    if is_called(role) && is_function(sort) {
        Told::Two(
            words::ARGUMENTS,
            Raw(name),
            Long(parameters(declaration) as u64),
        )
    } else if is_unseen(role, here, sort) {
        declared_as(text, name, declaration, words::UNSEEN)
    } else {
        declared_as(text, name, declaration, way(sort, role))
    }
}

// Does a function name what agents share?
fn is_unseen(role: Role, here: Option<Sort>, sort: Option<Sort>) -> bool
    ensures { result ≡ is_unseen role here sort }
{
    is_value(role) && (is_function(here) && is_shared(sort))
}

fn is_value(role: Role) -> bool
    ensures { result ≡ is_value role }
{
    matches!(role, Role::Value | Role::Assigned)
}

fn is_shared(sort: Option<Sort>) -> bool
    ensures { result ≡ is_shared sort }
{
    matches!(sort, Some(Sort::Temporal | Sort::Input | Sort::Stream))
}

// How many parameters a function has.
fn parameters(declaration: &[Token]) -> usize
    ensures { result ≡ parameters declaration.now }
{
    words_of_type(declaration).saturating_sub(1)
}

// How often `int` stands before the first bracket that closes.
fn words_of_type(declaration: &[Token]) -> usize
    ensures { result ≡ words_of_type declaration.now }
{
    let mut many = 0;
    let mut rest = declaration;
    'each: while let [token, more @ ..] = rest {
        if is_sign(Some(token), Sign::CloseRound) {
            return many;
        }
        many += of_type(token);
        rest = more;
    }
    many
}

// 1 for such a word, and 0 for another token.
fn of_type(token: &Token) -> usize
    ensures value { result ≡ of_type token.now }
    ensures small { result ≤ 1 }
{
    if is_word(Some(token), Word::Int) {
        1
    } else {
        0
    }
}

// What stands where, and what to do.
fn way(sort: Option<Sort>, role: Role) -> &'static [u8]
    ensures { result.now ≡ way sort role }
{
    match role {
        Role::Clock => words::AT_CLOCK,
        Role::Parent => words::AT_PARENT,
        Role::Agent => words::AT_AGENT,
        Role::Target => words::AT_TARGET,
        Role::Messages => words::AT_MESSAGES,
        Role::Past => words::AT_PAST,
        Role::Function => words::AT_CALL,
        Role::Cell => words::AT_CELL,
        Role::Assigned => assigned_way(sort),
        Role::Value => value_way(sort),
    }
}

fn assigned_way(sort: Option<Sort>) -> &'static [u8]
    ensures { result.now ≡ assigned_way sort }
{
    match sort {
        Some(Sort::Array) => words::ASSIGNED_ARRAY,
        Some(Sort::Stream) => words::ASSIGNED_STREAM,
        Some(Sort::Input) => words::ASSIGNED_INPUT,
        _ => words::ASSIGNED_OTHER,
    }
}

fn value_way(sort: Option<Sort>) -> &'static [u8]
    ensures { result.now ≡ value_way sort }
{
    match sort {
        Some(Sort::Array) => words::VALUE_OF_ARRAY,
        Some(Sort::Stream) => words::VALUE_OF_STREAM,
        Some(Sort::Input) => words::VALUE_OF_INPUT,
        Some(Sort::Function) => words::VALUE_OF_FUNCTION,
        _ => words::NO_VALUE,
    }
}
