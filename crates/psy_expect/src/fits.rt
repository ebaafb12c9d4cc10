//! Which rule of a common slip fits a place.
ghost use Rattle.std.specs.Prelude.{◌≡◌};
ghost use Rattle.psy_expect.specs.Hints.{fits, has_ended, is, is_among, is_called, is_end, is_foreign, is_function_inside, is_look, is_loop};
ghost use Rattle.psy_expect.specs.Hints.{is_modifier, is_nameless, is_nothing, is_one_behind, is_reserved, is_some_few, is_statement, is_twice};
ghost use Rattle.psy_expect.specs.Hints.{begins_foreign, has_minuses, is_arrow, is_behind, is_cast, is_cast_by_name, is_number_alone, is_type};
ghost use Rattle.psy_expect.specs.Hints.{is_pointer, is_round_missing, is_size, is_step_within, is_type_in_vain, is_typed, is_typed_outside, is_width};

use crate::around::Around;
use crate::foreign::Foreign;
use crate::group::{Group, has, members, same};
use crate::hint::Hint;
use crate::terminal::Terminal;
use psy_tree::{Sign, Word};

const WIDTHS: [Terminal; 4] = [
    Terminal::Word(Word::Int8),
    Terminal::Word(Word::Int16),
    Terminal::Word(Word::Int32),
    Terminal::Word(Word::Int64),
];

const HEADS: [Terminal; 5] = [
    Terminal::Word(Word::Agent),
    Terminal::Word(Word::Clock),
    Terminal::Word(Word::Input),
    Terminal::Word(Word::Stream),
    Terminal::Word(Word::Temporal),
];

const BEGINNINGS: [Terminal; 6] = [
    Terminal::Word(Word::Advance),
    Terminal::Word(Word::Else),
    Terminal::Word(Word::If),
    Terminal::Word(Word::Return),
    Terminal::Word(Word::Send),
    Terminal::Word(Word::While),
];

const LOOKS: [Terminal; 3] = [
    Terminal::Word(Word::Past),
    Terminal::Word(Word::Ready),
    Terminal::Word(Word::Take),
];

const VALUES: [Terminal; 11] = [
    Terminal::Word(Word::Int),
    Terminal::Word(Word::Int8),
    Terminal::Word(Word::Int16),
    Terminal::Word(Word::Int32),
    Terminal::Word(Word::Int64),
    Terminal::Word(Word::Past),
    Terminal::Word(Word::Ready),
    Terminal::Word(Word::Take),
    Terminal::Name,
    Terminal::Sign(Sign::OpenRound),
    Terminal::Sign(Sign::Minus),
];

const JOINED: [Terminal; 8] = [
    Terminal::Sign(Sign::Plus),
    Terminal::Sign(Sign::Minus),
    Terminal::Sign(Sign::Star),
    Terminal::Sign(Sign::Slash),
    Terminal::Sign(Sign::Percent),
    Terminal::Sign(Sign::Amp),
    Terminal::Sign(Sign::Caret),
    Terminal::Sign(Sign::Bar),
];

const OPERATORS: [Terminal; 5] = [
    Terminal::Sign(Sign::Plus),
    Terminal::Sign(Sign::Minus),
    Terminal::Sign(Sign::Star),
    Terminal::Sign(Sign::Slash),
    Terminal::Sign(Sign::Percent),
];

const ENDINGS: [Terminal; 3] = [
    Terminal::Sign(Sign::Assign),
    Terminal::Sign(Sign::Semicolon),
    Terminal::Sign(Sign::OpenSquare),
];

const CONDITIONS: [Terminal; 2] = [Terminal::Word(Word::If), Terminal::Word(Word::While)];

const CLOSINGS: [Terminal; 3] = [
    Terminal::Sign(Sign::CloseRound),
    Terminal::Sign(Sign::CloseSquare),
    Terminal::Sign(Sign::CloseBrace),
];

const OPENINGS: [Terminal; 6] = [
    Terminal::Sign(Sign::Assign),
    Terminal::Sign(Sign::OpenRound),
    Terminal::Sign(Sign::OpenSquare),
    Terminal::Sign(Sign::Comma),
    Terminal::Word(Word::Return),
    Terminal::Word(Word::Send),
];

const UNTYPED: [Terminal; 3] = [
    Terminal::Word(Word::Input),
    Terminal::Word(Word::Stream),
    Terminal::Word(Word::Temporal),
];

/// Does the rule fit a place with this around it, where these terminals may stand, and the program goes on where one of those is put before it, or where it
/// is left out?
pub fn fits(hint: Hint, a: Around, told: &[Terminal], mends: &[Terminal], is_extra: bool) -> bool
    ensures { result ≡ fits hint a told.now mends.now is_extra }
{
    match hint {
        Hint::FunctionInside => is_function_inside(a, told),
        Hint::DeclarationInBody => is_typed(a) && has(told, Terminal::Word(Word::If)),
        Hint::DeclarationBehindBody => is_typed(a) && has(told, Terminal::Sign(Sign::CloseBrace)),
        Hint::NoType => is_extra && is_type_in_vain(a, told),
        Hint::Width => is_width(a, told),
        Hint::Types => (is_foreign(a.foreign_here, Foreign::TypeWord)
            && has(told, Terminal::Word(Word::Int8)))
            || (is_foreign(a.foreign_before, Foreign::TypeWord)
                && has(told, Terminal::Sign(Sign::Assign))),
        Hint::Constant => (is_foreign(a.foreign_here, Foreign::Constant)
            && has(told, Terminal::Word(Word::Agent)))
            || ((is_foreign(a.foreign_here, Foreign::Enumeration)
                && has(told, Terminal::Word(Word::Int)))
                || (is_foreign(a.foreign_before, Foreign::Enumeration)
                    && has(told, Terminal::Sign(Sign::Assign)))),
        Hint::Modifier => (is_modifier(a.foreign_here) && has(told, Terminal::Word(Word::Int)))
            || (is_modifier(a.foreign_before) && has(told, Terminal::Sign(Sign::Assign))),
        Hint::NoParameters => is_foreign(a.foreign_here, Foreign::Void)
            && (has(told, Terminal::Word(Word::Int))
                && has(told, Terminal::Sign(Sign::CloseRound))),
        Hint::Void => is_foreign(a.foreign_here, Foreign::Void)
            && has(told, Terminal::Word(Word::Int)),
        Hint::FunctionWord => is_foreign(a.foreign_here, Foreign::Function)
            && has(told, Terminal::Word(Word::Int)),
        Hint::Structure => begins_foreign(a, told, Foreign::Structure),
        Hint::External => begins_foreign(a, told, Foreign::External),
        Hint::NoFor => is_foreign(a.foreign_before, Foreign::For)
            && is(a.here, Terminal::Sign(Sign::OpenRound)),
        Hint::OtherLoop => is_foreign(a.foreign_before, Foreign::Loop)
            && has(told, Terminal::Sign(Sign::Assign)),
        Hint::Jump => is_foreign(a.foreign_before, Foreign::Jump)
            && has(told, Terminal::Sign(Sign::Assign)),
        Hint::Switch => is_foreign(a.foreign_before, Foreign::Switch)
            && has(told, Terminal::Sign(Sign::Assign)),
        Hint::ElseIf => (is_foreign(a.foreign_before, Foreign::ElseIf)
            && has(told, Terminal::Sign(Sign::Assign)))
            || (is(a.before, Terminal::Word(Word::Else))
                && (is(a.here, Terminal::Word(Word::If))
                    && has(told, Terminal::Sign(Sign::OpenBrace)))),
        Hint::Else => is(a.before, Terminal::Word(Word::Else))
            && has(told, Terminal::Sign(Sign::OpenBrace)),
        Hint::SmallLetters => is_among(a.small_here, told)
            || (is_among(a.small_before, &BEGINNINGS) && has(told, Terminal::Sign(Sign::Assign))),
        Hint::Then => is_foreign(a.foreign_here, Foreign::Then)
            && has(told, Terminal::Sign(Sign::OpenBrace)),
        Hint::Times => is_foreign(a.foreign_here, Foreign::Times)
            && has(told, Terminal::Sign(Sign::Star)),
        Hint::Logical => (is_foreign(a.foreign_here, Foreign::Logical)
            && has(told, Terminal::Sign(Sign::Plus)))
            || (is_foreign(a.foreign_before, Foreign::Logical)
                && has(told, Terminal::Sign(Sign::Plus))),
        Hint::Wait => is_foreign(a.foreign_before, Foreign::Wait)
            && has(told, Terminal::Sign(Sign::Assign)),
        Hint::Print => is_foreign(a.foreign_before, Foreign::Print)
            && has(told, Terminal::Sign(Sign::Assign)),
        Hint::ValueAlone => (is_among(a.here, &LOOKS) || is_type(a.here))
            && has(told, Terminal::Word(Word::If)),
        Hint::TickAsClock => is(a.here, Terminal::Word(Word::Tick))
            && is(a.before, Terminal::Word(Word::On)),
        Hint::IncrementWithin => is_step_within(a, told),
        Hint::Increment => is_twice(a, Terminal::Sign(Sign::Plus))
            || is_twice(a, Terminal::Sign(Sign::Minus)),
        Hint::Compound => is_among(a.here, &JOINED)
            && (is(a.behind, Terminal::Sign(Sign::Assign))
                && (a.is_joined_behind && has(told, Terminal::Sign(Sign::Assign)))),
        Hint::LessOrEqual => is(a.here, Terminal::Sign(Sign::Assign))
            && ((is(a.behind, Terminal::Sign(Sign::Less))
                || is(a.behind, Terminal::Sign(Sign::Greater)))
                && (a.is_joined_behind && has(told, Terminal::Sign(Sign::Equal)))),
        Hint::NotEqual => is(a.here, Terminal::Sign(Sign::Assign))
            && (is(a.behind, Terminal::Sign(Sign::Bang))
                && (a.is_joined_behind && has(told, Terminal::Sign(Sign::Equal)))),
        Hint::Unlike => is(a.here, Terminal::Sign(Sign::Greater))
            && (is(a.before, Terminal::Sign(Sign::Less)) && a.is_joined_before),
        Hint::Power => is(a.here, Terminal::Sign(Sign::Star))
            && (is(a.before, Terminal::Sign(Sign::Star)) && a.is_joined_before),
        Hint::Arrow => is_arrow(a),
        Hint::Pointer => is_pointer(a, told),
        Hint::UnaryPlus => is(a.here, Terminal::Sign(Sign::Plus))
            && has(told, Terminal::Sign(Sign::Tilde)),
        Hint::Sizeof => is_size(a, told),
        Hint::Square => has(mends, Terminal::Sign(Sign::CloseSquare)),
        Hint::Cells => (is_type(a.starter)
            && ((is(a.before, Terminal::Sign(Sign::CloseSquare))
                && is(a.here, Terminal::Sign(Sign::Assign)))
                || (is(a.here, Terminal::Sign(Sign::CloseSquare))
                    && is(a.behind, Terminal::Sign(Sign::Assign)))))
            || ((is_type(a.starter) || is(a.starter, Terminal::Name))
                && (is(a.before, Terminal::Sign(Sign::Assign))
                    && is(a.here, Terminal::Sign(Sign::OpenBrace)))),
        Hint::Dimension => is(a.before, Terminal::Sign(Sign::CloseSquare))
            && is(a.here, Terminal::Sign(Sign::OpenSquare)),
        Hint::Global => (is(a.starter, Terminal::Word(Word::Int))
            && (has(told, Terminal::Sign(Sign::OpenRound))
                && (is_among(a.here, &ENDINGS) && !has(told, Terminal::Sign(Sign::Semicolon)))))
            || is_typed_outside(a, told),
        Hint::NoValue => is_end(a.here)
            && (is_type(a.starter) && has(told, Terminal::Sign(Sign::Assign))),
        Hint::NameAlone => is(a.here, Terminal::Sign(Sign::Semicolon))
            && (is(a.before, Terminal::Name)
                && (is(a.starter, Terminal::Name) && has(told, Terminal::Sign(Sign::Assign)))),
        Hint::NoResult => is(a.before, Terminal::Word(Word::Return))
            && (is(a.here, Terminal::Sign(Sign::Semicolon))
                || is(a.here, Terminal::Sign(Sign::CloseBrace))),
        Hint::Chain => is(a.here, Terminal::Sign(Sign::Assign))
            && (has(told, Terminal::Sign(Sign::Equal))
                && has(told, Terminal::Sign(Sign::Semicolon))),
        Hint::LoopComparison => is(a.here, Terminal::Sign(Sign::Assign))
            && (is(a.starter, Terminal::Word(Word::While))
                && has(told, Terminal::Sign(Sign::Equal))),
        Hint::Comparison => is(a.here, Terminal::Sign(Sign::Assign))
            && has(told, Terminal::Sign(Sign::Equal)),
        Hint::Assignment => is(a.here, Terminal::Sign(Sign::Equal))
            && has(told, Terminal::Sign(Sign::Assign)),
        Hint::OneByOne => is(a.here, Terminal::Sign(Sign::Comma))
            && (has(told, Terminal::Sign(Sign::Assign))
                || has(told, Terminal::Sign(Sign::Semicolon))),
        Hint::Call => is(a.before, Terminal::Name)
            && (is(a.here, Terminal::Sign(Sign::OpenRound))
                && (has(told, Terminal::Sign(Sign::Assign)) && !is_type(a.starter))),
        Hint::Prototype => is(a.here, Terminal::Sign(Sign::Semicolon))
            && (is(a.starter, Terminal::Word(Word::Int))
                && has(told, Terminal::Sign(Sign::OpenBrace))),
        Hint::LeaveOut => is_extra
            && (is(a.here, Terminal::Sign(Sign::Comma))
                || (is_type(a.here) && has(told, Terminal::Name))),
        Hint::EmptyCondition => is(a.here, Terminal::Sign(Sign::Semicolon))
            && (is_among(a.starter, &CONDITIONS) && has(told, Terminal::Sign(Sign::OpenBrace))),
        Hint::BodyMissing => is(a.here, Terminal::Sign(Sign::CloseBrace))
            && has(told, Terminal::Word(Word::Body)),
        Hint::Extra => (is_among(a.here, &CLOSINGS) && (is_extra && !is_nothing(a.behind)))
            || (is(a.here, Terminal::Sign(Sign::CloseBrace))
                && has(told, Terminal::Word(Word::Agent))),
        Hint::Braces => is_among(a.starter, &CONDITIONS)
            && has(told, Terminal::Sign(Sign::OpenBrace)),
        Hint::After => is(a.before, Terminal::Word(Word::After)) && has(told, Terminal::Number),
        Hint::NoStatement => is(a.here, Terminal::Sign(Sign::Semicolon))
            && has(told, Terminal::Word(Word::If)),
        Hint::Ended => has_ended(a) && has(told, Terminal::Word(Word::Agent)),
        Hint::Outside => is_among(a.here, members(Group::Statement))
            && has(told, Terminal::Word(Word::Agent)),
        Hint::Repeats => is_loop(a) && has(told, Terminal::Word(Word::Body)),
        Hint::NoBody => is_among(a.here, members(Group::Statement))
            && has(told, Terminal::Word(Word::Body)),
        Hint::BodyEnded => is_statement(a.here)
            && (has(told, Terminal::Sign(Sign::CloseBrace))
                && !has(told, Terminal::Word(Word::If))),
        Hint::SecondTick => is(a.here, Terminal::Word(Word::Tick))
            && has(told, Terminal::Word(Word::Agent)),
        Hint::SecondBody => is(a.here, Terminal::Word(Word::Body))
            && (has(told, Terminal::Sign(Sign::CloseBrace))
                && !has(told, Terminal::Word(Word::If))),
        Hint::InsideAgent => is_among(a.here, &HEADS) && has(told, Terminal::Word(Word::Body)),
        Hint::Back => is(a.here, Terminal::Sign(Sign::CloseRound))
            && (has(told, Terminal::Sign(Sign::Comma)) && !has(told, Terminal::Sign(Sign::Plus))),
        Hint::Close => ((is_nothing(a.here) || is_among(a.here, &HEADS))
            && has(told, Terminal::Sign(Sign::CloseBrace)))
            || (is(a.here, Terminal::Word(Word::Else))
                && has(mends, Terminal::Sign(Sign::CloseBrace))),
        Hint::ElseAlone => is(a.here, Terminal::Word(Word::Else))
            && has(told, Terminal::Word(Word::If)),
        Hint::Semicolon => has(mends, Terminal::Sign(Sign::Semicolon)),
        Hint::NoSemicolon => is(a.here, Terminal::Sign(Sign::Semicolon)) && is_nothing(a.starter),
        Hint::Missing => is_some_few(mends),
        Hint::Block => is(a.here, Terminal::Sign(Sign::OpenBrace))
            && has(told, Terminal::Word(Word::If)),
        Hint::LookName => is_look(a, told),
        Hint::Cast => is_cast(a, told) || is_cast_by_name(a, told),
        Hint::ReservedCall => is_called(a)
            && (has(told, Terminal::Sign(Sign::Tilde)) || has(told, Terminal::Word(Word::If))),
        Hint::Reserved => is_reserved(a.here)
            && (has(told, Terminal::Name)
                && (!has(told, Terminal::Word(Word::If))
                    || (is(a.behind, Terminal::Sign(Sign::Assign))
                        || is(a.behind, Terminal::Sign(Sign::OpenSquare))))),
        Hint::Brackets => is_among(a.before, &LOOKS) && has(told, Terminal::Sign(Sign::OpenRound)),
        Hint::Round => is_round_missing(a, mends),
        Hint::MaxAlone => is_behind(a, Terminal::Word(Word::Max)) && is_number_alone(a, told),
        Hint::AdvanceAlone => is_behind(a, Terminal::Word(Word::Advance))
            && is_number_alone(a, told),
        Hint::Signed => is(a.here, Terminal::Sign(Sign::Minus)) && is_number_alone(a, told),
        Hint::NumberAlone => is_number_alone(a, told),
        Hint::SemicolonAtEnd => (is_nothing(a.here)
            || (is_reserved(a.here)
                || (is(a.here, Terminal::Name) || is(a.here, Terminal::Sign(Sign::CloseBrace)))))
            && has(told, Terminal::Sign(Sign::Semicolon)),
        Hint::FunctionArray => is_type(a.starter)
            && (is(a.before, Terminal::Name) && is(a.here, Terminal::Sign(Sign::OpenSquare))),
        Hint::Period => is(a.starter, Terminal::Word(Word::Clock))
            && has(told, Terminal::Sign(Sign::Assign)),
        Hint::FirstTemporal => is(a.starter, Terminal::Word(Word::Temporal))
            && has(told, Terminal::Sign(Sign::Assign)),
        Hint::FirstInput => is(a.starter, Terminal::Word(Word::Input))
            && has(told, Terminal::Sign(Sign::Assign)),
        Hint::Depth => (is(a.starter, Terminal::Word(Word::Temporal))
            || is(a.starter, Terminal::Word(Word::Input)))
            && has(told, Terminal::Word(Word::Depth)),
        Hint::FormTick => {
            is(a.starter, Terminal::Word(Word::Tick))
                || (has(told, Terminal::Word(Word::Tick)) && !has(told, Terminal::Name))
        }
        Hint::FormClock => is(a.starter, Terminal::Word(Word::Clock)),
        Hint::FormTemporal => is(a.starter, Terminal::Word(Word::Temporal)),
        Hint::FormInput => is(a.starter, Terminal::Word(Word::Input)),
        Hint::FormStream => is(a.starter, Terminal::Word(Word::Stream)),
        Hint::FormAgent => is(a.starter, Terminal::Word(Word::Agent)),
        Hint::FormInt => is(a.starter, Terminal::Word(Word::Int)),
        Hint::FormType => is_among(a.starter, &WIDTHS),
        Hint::FormIf => is(a.starter, Terminal::Word(Word::If)),
        Hint::FormWhile => is(a.starter, Terminal::Word(Word::While)),
        Hint::FormSend => is(a.starter, Terminal::Word(Word::Send)),
        Hint::FormAdvance => is(a.starter, Terminal::Word(Word::Advance)),
        Hint::FormAssign => is(a.starter, Terminal::Name)
            && has(told, Terminal::Sign(Sign::Assign)),
    }
}

// Does the sign stand here and directly behind it, or here and directly before it?
fn is_twice(a: Around, sign: Terminal) -> bool
    ensures { result ≡ is_twice a sign }
{
    is(a.here, sign)
        && ((is(a.behind, sign) && a.is_joined_behind)
            || (is(a.before, sign) && a.is_joined_before))
}

// Does a function begin here among statements or behind a body, or are its parameters here, inside an agent or another function?
fn is_function_inside(a: Around, told: &[Terminal]) -> bool
    ensures { result ≡ is_function_inside a told.now }
{
    (is_typed(a)
        && (is(a.further, Terminal::Sign(Sign::OpenRound))
            && has(told, Terminal::Sign(Sign::CloseBrace))))
        || (is(a.here, Terminal::Sign(Sign::OpenRound))
            && (is_type(a.starter)
                && (has(told, Terminal::Sign(Sign::Assign))
                    && (is_type(a.behind) || is(a.behind, Terminal::Sign(Sign::CloseRound))))))
}

// Is a word of a type there?
fn is_type(there: Option<Terminal>) -> bool
    ensures { result ≡ is_type there }
{
    is_among(there, members(Group::TypeName))
}

// Is the word of a type here, and no bracket of a cast behind it?
fn is_typed(a: Around) -> bool
    ensures { result ≡ is_typed a }
{
    is_type(a.here) && !is(a.behind, Terminal::Sign(Sign::OpenRound))
}

// Is a variable of another type than `int` declared outside of agents and functions?
fn is_typed_outside(a: Around, told: &[Terminal]) -> bool
    ensures { result ≡ is_typed_outside a told.now }
{
    has(told, Terminal::Word(Word::Agent))
        && (is_among(a.further, &ENDINGS)
            && (is_among(a.here, &WIDTHS) || is_foreign(a.foreign_here, Foreign::TypeWord)))
}

// Is a type here, in a declaration in which none is written, or before one?
fn is_type_in_vain(a: Around, told: &[Terminal]) -> bool
    ensures { result ≡ is_type_in_vain a told.now }
{
    is_type(a.here)
        && ((has(told, Terminal::Name) && is_among(a.starter, &UNTYPED))
            || is_among(a.behind, &UNTYPED))
}

// Is another type than `int` here, where there is `int` alone?
fn is_width(a: Around, told: &[Terminal]) -> bool
    ensures { result ≡ is_width a told.now }
{
    (is_among(a.here, &WIDTHS) || is_foreign(a.foreign_here, Foreign::TypeWord))
        && (has(told, Terminal::Word(Word::Int))
            && !(has(told, Terminal::Word(Word::Int8)) || is_typed_outside(a, told)))
}

// Does a statement begin here, or an `else`?
fn is_statement(here: Option<Terminal>) -> bool
    ensures { result ≡ is_statement here }
{
    is_among(here, &BEGINNINGS) || is(here, Terminal::Name)
}

// Does a statement begin here, an assignment where it is a name, or an `else`, behind a `}`?
fn has_ended(a: Around) -> bool
    ensures { result ≡ has_ended a }
{
    is(a.before, Terminal::Sign(Sign::CloseBrace))
        && (is_among(a.here, &BEGINNINGS)
            || (is(a.here, Terminal::Name)
                && (is(a.behind, Terminal::Sign(Sign::Assign))
                    || is(a.behind, Terminal::Sign(Sign::OpenSquare)))))
}

// Does an expression stand in the brackets of `past`, `ready` or `take`: in the place of the name, or going on behind it?
fn is_look(a: Around, told: &[Terminal]) -> bool
    ensures { result ≡ is_look a told.now }
{
    (is(a.before, Terminal::Sign(Sign::OpenRound))
        && (has(told, Terminal::Name)
            && (!has(told, Terminal::Sign(Sign::Tilde)) && is_nameless(a.here))))
        || (is(a.before, Terminal::Name)
            && (is_one_behind(told)
                && (!has(told, Terminal::Sign(Sign::Plus))
                    && (is_among(a.here, members(Group::Operator))
                        || (is(a.here, Terminal::Sign(Sign::OpenSquare))
                            || is(a.here, Terminal::Sign(Sign::OpenRound)))))))
}

// May a comma stand here, or else a bracket that closes, as behind the names in those brackets?
fn is_one_behind(told: &[Terminal]) -> bool
    ensures { result ≡ is_one_behind told.now }
{
    if has(told, Terminal::Sign(Sign::Comma)) {
        !has(told, Terminal::Sign(Sign::CloseRound))
    } else {
        has(told, Terminal::Sign(Sign::CloseRound))
    }
}

// Is a reserved word called, other than one before a condition?
fn is_called(a: Around) -> bool
    ensures { result ≡ is_called a }
{
    is_reserved(a.here)
        && (is(a.behind, Terminal::Sign(Sign::OpenRound)) && !is_among(a.here, &CONDITIONS))
}

fn is(there: Option<Terminal>, terminal: Terminal) -> bool
    ensures { result ≡ is there terminal }
{
    match there {
        Some(here) => same(here, terminal),
        None => false,
    }
}

fn is_among(there: Option<Terminal>, terminals: &[Terminal]) -> bool
    ensures { result ≡ is_among there terminals.now }
{
    match there {
        Some(here) => has(terminals, here),
        None => false,
    }
}

fn is_reserved(there: Option<Terminal>) -> bool
    ensures { result ≡ is_reserved there }
{
    matches!(there, Some(Terminal::Word(_)))
}

fn is_nothing(there: Option<Terminal>) -> bool
    ensures { result ≡ is_nothing there }
{
    there.is_none()
}

fn is_foreign(there: Option<Foreign>, foreign: Foreign) -> bool
    ensures { result ≡ is_foreign there foreign }
{
    match there {
        Some(here) => here == foreign,
        None => false,
    }
}

// Does a declaration end here, or another piece of the program begin?
fn is_end(here: Option<Terminal>) -> bool
    ensures { result ≡ is_end here }
{
    is(here, Terminal::Sign(Sign::Semicolon))
        || (is(here, Terminal::Sign(Sign::CloseBrace)) || (is_reserved(here) || is_nothing(here)))
}

// Does a word of this sort stand where a declaration may begin, or did it begin what looks like a statement?
fn begins_foreign(a: Around, told: &[Terminal], foreign: Foreign) -> bool
    ensures { result ≡ begins_foreign a told.now foreign }
{
    (is_foreign(a.foreign_here, foreign) && has(told, Terminal::Word(Word::Int)))
        || (is_foreign(a.foreign_before, foreign) && has(told, Terminal::Sign(Sign::Assign)))
}

// Do two `-` stand before this, one directly behind the other?
fn has_minuses(a: Around) -> bool
    ensures { result ≡ has_minuses a }
{
    is(a.before, Terminal::Sign(Sign::Minus))
        && (is(a.earlier, Terminal::Sign(Sign::Minus)) && a.is_joined_earlier)
}

// Is `++` here, or does `--` stand before this, where a value is to go on?
fn is_step_within(a: Around, told: &[Terminal]) -> bool
    ensures { result ≡ is_step_within a told.now }
{
    has(told, Terminal::Sign(Sign::Tilde))
        && (is_twice(a, Terminal::Sign(Sign::Plus)) || has_minuses(a))
}

// Is `->` here, or its `>`?
fn is_arrow(a: Around) -> bool
    ensures { result ≡ is_arrow a }
{
    (is(a.here, Terminal::Sign(Sign::Greater))
        && (is(a.before, Terminal::Sign(Sign::Minus)) && a.is_joined_before))
        || (is(a.here, Terminal::Sign(Sign::Minus))
            && (is(a.behind, Terminal::Sign(Sign::Greater)) && a.is_joined_behind))
}

// Does `*` or `&` stand where a statement may begin, or behind a type in a declaration or in brackets, or where a value begins?
fn is_pointer(a: Around, told: &[Terminal]) -> bool
    ensures { result ≡ is_pointer a told.now }
{
    (is(a.here, Terminal::Sign(Sign::Star)) || is(a.here, Terminal::Sign(Sign::Amp)))
        && (has(told, Terminal::Word(Word::If))
            || ((is_type(a.before)
                && (has(told, Terminal::Name) || is(a.earlier, Terminal::Sign(Sign::OpenRound))))
                || (is_among(a.before, &OPENINGS) && has(told, Terminal::Sign(Sign::Tilde)))))
}

// Does it stand in the brackets of `sizeof`, or behind it?
fn is_size(a: Around, told: &[Terminal]) -> bool
    ensures { result ≡ is_size a told.now }
{
    (is_foreign(a.foreign_earliest, Foreign::Size) && is_type(a.before))
        || ((is_foreign(a.foreign_earlier, Foreign::Size)
            && is(a.before, Terminal::Sign(Sign::OpenRound)))
            || (is_foreign(a.foreign_before, Foreign::Size)
                && has(told, Terminal::Sign(Sign::Plus))))
}

// Does a type stand where a value may begin, without a cast's bracket behind it?
fn is_cast(a: Around, told: &[Terminal]) -> bool
    ensures { result ≡ is_cast a told.now }
{
    is_type(a.before) && has(told, Terminal::Sign(Sign::OpenRound))
}

// Does a value begin behind brackets with another language's word for a type?
fn is_cast_by_name(a: Around, told: &[Terminal]) -> bool
    ensures { result ≡ is_cast_by_name a told.now }
{
    is_foreign(a.foreign_earlier, Foreign::TypeWord)
        && (is(a.before, Terminal::Sign(Sign::CloseRound)) && has(told, Terminal::Sign(Sign::Plus)))
}

// Does a name, a value or a sign stand where a number may and no name, or an operator behind a number where none may?
fn is_number_alone(a: Around, told: &[Terminal]) -> bool
    ensures { result ≡ is_number_alone a told.now }
{
    (is_among(a.here, &VALUES) && (has(told, Terminal::Number) && !has(told, Terminal::Name)))
        || (is_among(a.here, &OPERATORS)
            && (is(a.before, Terminal::Number)
                && (!has(told, Terminal::Sign(Sign::Plus))
                    && !has(told, Terminal::Sign(Sign::Star)))))
}

// Does an operator stand behind a number, with a `)` missing between them?
fn is_round_missing(a: Around, mends: &[Terminal]) -> bool
    ensures { result ≡ is_round_missing a mends.now }
{
    is(a.before, Terminal::Number)
        && (is_among(a.here, members(Group::Operator))
            && (has(mends, Terminal::Sign(Sign::CloseRound))
                && !is(a.further, Terminal::Sign(Sign::CloseRound))))
}

// Does this terminal stand before the place, or before that which stands there?
fn is_behind(a: Around, terminal: Terminal) -> bool
    ensures { result ≡ is_behind a terminal }
{
    is(a.before, terminal) || is(a.earlier, terminal)
}

// Is it `const` or `static`, or one of their kin?
fn is_modifier(there: Option<Foreign>) -> bool
    ensures { result ≡ is_modifier there }
{
    is_foreign(there, Foreign::Constant) || is_foreign(there, Foreign::Modifier)
}

// Does a loop begin here, in the language's word or in another's?
fn is_loop(a: Around) -> bool
    ensures { result ≡ is_loop a }
{
    is(a.here, Terminal::Word(Word::While))
        || (is_foreign(a.foreign_here, Foreign::For) || is_foreign(a.foreign_here, Foreign::Loop))
}

// Does an expression begin here, and with no name?
fn is_nameless(here: Option<Terminal>) -> bool
    ensures { result ≡ is_nameless here }
{
    is_among(here, members(Group::Expression)) && !is(here, Terminal::Name)
}

// Are there some, and so few that they are told, or an operator among them?
fn is_some_few(mends: &[Terminal]) -> bool
    ensures { result ≡ is_some_few mends.now }
{
    !mends.is_empty() && (mends.len() <= 3 || has(mends, Terminal::Sign(Sign::Percent)))
}
