//! The statements of a script, and words that are alike in them.
ghost use Rattle.std.specs.Prelude.{◌≡◌, map};
ghost use Rattle.std.specs.Option.{option_copied};
ghost use Rattle.psy_slip.specs.Statements.{first_twice, is_alike, is_among, statement_of};

use crate::numbers::is_same_number;

/// A statement of a script.
#[derive(Clone, Copy, Debug, PartialEq, Eq)]
pub enum Statement {
    Stall,
    Order,
    Round,
}

/// The statement that begins with this word.
pub fn statement_of(word: &[u8]) -> Option<Statement>
    ensures { result ≡ statement_of word.now }
{
    match word {
        b"stall" => Some(Statement::Stall),
        b"order" => Some(Statement::Order),
        b"round" => Some(Statement::Round),
        _ => None,
    }
}

// Are two words behind the cycle of a statement alike: in a round one number, else one name?
fn is_alike(statement: Statement, word: &[u8], other: &[u8]) -> bool
    ensures { result ≡ is_alike statement word.now other.now }
{
    match statement {
        Statement::Round => is_same_number(word, other),
        Statement::Stall | Statement::Order => word == other,
    }
}

/// Is a word like one of these?
pub fn is_among(statement: Statement, words: &[&[u8]], word: &[u8]) -> bool
    ensures { result ≡ is_among statement (map (λ w. w.now) words.now) word.now }
{
    let mut rest = words;
    'each: while let [other, more @ ..] = rest {
        if is_alike(statement, word, other) {
            return true;
        }
        rest = more;
    }
    false
}

/// The first word that stands again behind itself.
pub fn first_twice<'a>(statement: Statement, words: &[&'a [u8]]) -> Option<&'a [u8]>
    ensures { option_copied result ≡ first_twice statement (map (λ w. w.now) words.now) }
{
    let mut rest = words;
    'each: while let [word, more @ ..] = rest {
        if is_among(statement, more, word) {
            return Some(word);
        }
        rest = more;
    }
    None
}
