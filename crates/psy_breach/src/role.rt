//! What a place asks of the name that stands there.
ghost use Rattle.std.specs.Prelude.{◌≡◌, slice_get};
ghost use Rattle.std.specs.Option.{option_copied};
ghost use Rattle.psy_breach.specs.Roles.{is_called, is_in_clock, role_before, role_behind, role_behind_to, role_at, role_in_brackets, role_of, role_or};

use crate::token::{before, is_sign, is_word};
use psy_tree::{Sign, Token, Word};

/// What a place asks of the name that stands there.
#[derive(Clone, Copy, Debug, PartialEq, Eq)]
pub enum Role {
    /// A clock, behind `on`.
    Clock,
    /// The clock from which another is derived.
    Parent,
    /// An agent, behind `of`, or behind `to` in the head of a stream.
    Agent,
    /// A stream to send to.
    Target,
    /// A stream of which `ready` or `take` is asked.
    Messages,
    /// A variable at which `past` looks.
    Past,
    /// A function that is called.
    Function,
    /// An array of which a cell is named.
    Cell,
    /// A variable that is assigned.
    Assigned,
    /// A variable whose value is wanted.
    Value,
}

/// Is a function called?
pub fn is_called(role: Role) -> bool
    ensures { result ≡ is_called role }
{
    matches!(role, Role::Function)
}

/// The role of a name, by the tokens before it, and itself with those behind it.
pub fn role_of(front: &[Token], back: &[Token]) -> Role
    ensures { result ≡ role_of front.now back.now }
{
    role_or(role_before(front), role_at(back))
}

// The role that the token behind a name gives it, by the tokens from the name on.
fn role_at(back: &[Token]) -> Role
    ensures { result ≡ role_at back.now }
{
    role_behind(second(back))
}

// The token behind the first of these.
fn second(back: &[Token]) -> Option<&Token>
    ensures { option_copied result ≡ slice_get back.now 1 }
{
    back.get(1)
}

fn role_or(role: Option<Role>, other: Role) -> Role
    ensures { result ≡ role_or role other }
{
    match role {
        Some(role) => role,
        None => other,
    }
}

// The role that the tokens before a name give it.
#[tactic(auto, unfolding(crate::specs::Roles::role_before))]
fn role_before(front: &[Token]) -> Option<Role>
    ensures { result ≡ role_before front.now }
{
    let last = before(front, 1);
    if is_word(last, Word::On) {
        Some(Role::Clock)
    } else if is_word(last, Word::Of) {
        Some(Role::Agent)
    } else if is_word(last, Word::To) {
        Some(role_behind_to(before(front, 3)))
    } else if is_in_clock(front) {
        Some(Role::Parent)
    } else if is_sign(last, Sign::OpenRound) {
        role_in_brackets(before(front, 2))
    } else {
        None
    }
}

fn role_behind_to(word: Option<&Token>) -> Role
    ensures { result ≡ role_behind_to (option_copied word.entry) }
{
    if is_word(word, Word::Stream) {
        Role::Agent
    } else {
        Role::Target
    }
}

// Does a clock's parent stand behind these?
fn is_in_clock(front: &[Token]) -> bool
    ensures { result ≡ is_in_clock front.now }
{
    is_word(before(front, 5), Word::Clock) && is_sign(before(front, 1), Sign::Star)
}

// The role behind a bracket that follows this token.
fn role_in_brackets(word: Option<&Token>) -> Option<Role>
    ensures { result ≡ role_in_brackets (option_copied word.entry) }
{
    if is_word(word, Word::Past) {
        Some(Role::Past)
    } else if is_word(word, Word::Ready) || is_word(word, Word::Take) {
        Some(Role::Messages)
    } else {
        None
    }
}

// The role that the token behind a name gives it.
fn role_behind(next: Option<&Token>) -> Role
    ensures { result ≡ role_behind (option_copied next.entry) }
{
    if is_sign(next, Sign::OpenRound) {
        Role::Function
    } else if is_sign(next, Sign::OpenSquare) {
        Role::Cell
    } else if is_sign(next, Sign::Assign) {
        Role::Assigned
    } else {
        Role::Value
    }
}
