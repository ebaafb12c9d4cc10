//! What is told of a number: of one out of its range, of one that reaches back too far, and of those of a clock.
ghost use Rattle.std.specs.Prelude.{◌≡◌};
ghost use Rattle.std.specs.Option.{option_copied};
ghost use Rattle.psy_breach.specs.Numbers.{clock_at, clock_told, deep_told, number_behind, period_told, range_behind, range_told, row_of};
ghost use Rattle.psy_breach.specs.Numbers.{shift_of, sign_range, type_before, values_told, word_range};
ghost use Rattle.psy_page.specs.Told.{said, sentence};

use crate::declared::{How, reached};
use crate::sentences as words;
use crate::token::{before, is_sign, is_word, name_at, number_at};
use psy_base::limits::{ADVANCE, AFTER, BUDGET, CELLS, DEPTH, KEEP, PROCESSORS, QUANTUM, TURNS};
use psy_clock::PERIOD;
use psy_page::Piece::{Number, Raw};
use psy_page::Told;
use psy_token::word_spelling;
use psy_tree::{Kind, Sign, Token, Word};

/// The least and the greatest number behind a word.
pub const RANGES: [(Word, u32, u32); 8] = [
    (Word::Tick, 1, QUANTUM),
    (Word::Processor, 0, PROCESSORS - 1),
    (Word::Budget, 1, BUDGET),
    (Word::Max, 1, TURNS),
    (Word::Depth, 1, DEPTH),
    (Word::Keep, 1, KEEP),
    (Word::Advance, 1, ADVANCE),
    (Word::After, 0, AFTER),
];

/// The range of the number behind these tokens.
pub fn range_told(front: &[Token]) -> Option<Told<'static>>
    ensures { said result ≡ range_told front.now }
{
    range_behind(front, &before(front, 1)?.kind)
}

fn range_behind(front: &[Token], kind: &Kind) -> Option<Told<'static>>
    ensures { said result ≡ range_behind front.now kind.now }
{
    match kind {
        Kind::Word(word) => word_range(*word),
        Kind::Sign(_) => sign_range(front),
        _ => None,
    }
}

fn word_range(word: Word) -> Option<Told<'static>>
    ensures { said result ≡ word_range word }
{
    let (_, least, greatest) = row_of(word)?;
    Some(Told::Three(
        words::RANGE,
        Raw(word_spelling(word)),
        Number(least),
        Number(greatest),
    ))
}

fn row_of(word: Word) -> Option<(Word, u32, u32)>
    ensures { result ≡ row_of word }
{
    RANGES.iter().copied().find(|row| row.0 == word)
}

fn sign_range(front: &[Token]) -> Option<Told<'static>>
    ensures { said result ≡ sign_range front.now }
{
    if is_sign(before(front, 1), Sign::OpenSquare) {
        Some(Told::One(words::CELLS_RANGE, Number(CELLS)))
    } else {
        values_told(type_before(front))
    }
}

// The type of a variable, by the tokens before its first value.
fn type_before(front: &[Token]) -> Option<&Token>
    ensures { option_copied result ≡ type_before front.now }
{
    if is_sign(before(front, 1), Sign::Minus) {
        before(front, 4)
    } else {
        before(front, 3)
    }
}

// What is told of the values of a type.
fn values_told(token: Option<&Token>) -> Option<Told<'static>>
    ensures { said result ≡ values_told (option_copied token.entry) }
{
    if is_word(token, Word::Int8) {
        Some(Told::Plain(words::INT8))
    } else if is_word(token, Word::Int16) {
        Some(Told::Plain(words::INT16))
    } else {
        None
    }
}

/// How far `past` reaches, at its number, by the tokens before that.
pub fn deep_told<'a>(tokens: &[Token], front: &'a [Token]) -> Option<Told<'a>>
    ensures { said result ≡ deep_told tokens.now front.now }
{
    let name = name_at(before(front, 2));
    let depth = number_behind(reached(How::Same, name, tokens, front)?, Word::Depth)?;
    Some(Told::Two(words::DEEP, Raw(name), Number(depth)))
}

// The number behind the first of these tokens that is this word.
fn number_behind(tokens: &[Token], word: Word) -> Option<u32>
    ensures { result ≡ number_behind tokens.now word }
{
    let mut rest = tokens;
    'each: while let [token, more @ ..] = rest {
        if is_word(Some(token), word) {
            return number_at(more.first());
        }
        rest = more;
    }
    None
}

/// Which of a clock's numbers is at fault, by its name and the tokens behind that.
pub fn clock_told(back: &[Token]) -> Option<Told<'_>>
    ensures { said result ≡ clock_told back.now }
{
    let factor = number_at(back.get(2))?;
    Some(clock_at(back.get(4), shift_of(back), factor))
}

#[tactic(auto, unfolding(crate::specs::Numbers::clock_at))]
fn clock_at(parent: Option<&Token>, shift: Option<u32>, factor: u32) -> Told<'_>
    ensures { sentence result ≡ clock_at (option_copied parent.entry) shift factor }
{
    match shift {
        Some(shift) if factor <= shift => Told::Two(words::SHIFT, Number(shift), Number(factor)),
        None if factor == 0 => Told::Plain(words::FACTOR),
        _ => period_told(factor, parent),
    }
}

// The shift that is written.
#[tactic(auto, unfolding(crate::specs::Numbers::shift_of))]
fn shift_of(back: &[Token]) -> Option<u32>
    ensures { result ≡ shift_of back.now }
{
    if is_sign(back.get(5), Sign::Plus) {
        number_at(back.get(6))
    } else {
        None
    }
}

fn period_told(factor: u32, parent: Option<&Token>) -> Told<'_>
    ensures { sentence result ≡ period_told factor (option_copied parent.entry) }
{
    let factor = Number(factor);
    let most = Number(PERIOD);
    if is_word(parent, Word::Tick) {
        Told::Two(words::TICKS, factor, most)
    } else {
        Told::Three(words::PERIODS, factor, Raw(name_at(parent)), most)
    }
}
