//! The assertion that the words of a line are.
ghost use Rattle.std.specs.Prelude.{◌≡◌, ◌≢◌, ◌∷◌, [], codes, MatchOption, map};
ghost use Rattle.psy_assert.specs.declared.terms.Relation.{Relation as Sort};
ghost use Rattle.psy_assert.specs.declared.terms.Span.{Span as Dates};
ghost use Rattle.psy_claims.specs.Grammar.{FitSpan, Spell, SpellNone, date_words, sign_of};

use crate::numbers::two_dates;
use psy_assert::{Assertion, Claim, Relation, Span};
use psy_text::whole;

/// The assertion that these words are; none exactly where they are none.
pub fn read_words<'a>(words: &[&'a [u8]]) -> Option<Assertion<'a>>
    ensures { MatchOption result (SpellNone (map (λ w. w.now) words.now)) (λ assertion. Spell (map (λ w. w.now) words.now) assertion) }
{
    match words {
        [first, second, rest @ ..] => of_words(first, second, rest),
        _ => None,
    }
}

// The assertion whose second word tells its sort.
fn of_words<'a>(first: &'a [u8], second: &[u8], rest: &[&'a [u8]]) -> Option<Assertion<'a>>
    ensures { MatchOption result (SpellNone (first.now ∷ second.now ∷ map (λ w. w.now) rest.now))
        (λ assertion. Spell (first.now ∷ second.now ∷ map (λ w. w.now) rest.now) assertion) }
{
    if let Some(relation) = relation_of(second) {
        return of_values(first, relation, rest);
    }
    if second == b"stop".as_slice() {
        return of_stop(first, rest);
    }
    if second == b"message".as_slice() {
        return of_message(first, rest);
    }
    None
}

// `VARIABLE REL NUMBER [DATES]`
fn of_values<'a>(variable: &'a [u8], relation: Relation, rest: &[&'a [u8]]) -> Option<Assertion<'a>>
    ensures { MatchOption result (SpellNone (variable.now ∷ sign_of relation ∷ map (λ w. w.now) rest.now))
        (λ assertion. Spell (variable.now ∷ sign_of relation ∷ map (λ w. w.now) rest.now) assertion) }
{
    let [value, dates @ ..] = rest else {
        return None;
    };
    let value = whole::value(value)?;
    let span = read_span(dates)?;
    Some(Assertion {
        claim: Claim::Values {
            variable,
            relation,
            value,
        },
        span,
    })
}

// `no stop [DATES]`
fn of_stop<'a>(first: &[u8], rest: &[&'a [u8]]) -> Option<Assertion<'a>>
    ensures { MatchOption result (SpellNone (first.now ∷ codes "stop" ∷ map (λ w. w.now) rest.now))
        (λ assertion. Spell (first.now ∷ codes "stop" ∷ map (λ w. w.now) rest.now) assertion) }
{
    if first != b"no".as_slice() {
        return None;
    }
    let span = read_span(rest)?;
    Some(Assertion {
        claim: Claim::NoStop,
        span,
    })
}

// `no message on STREAM [DATES]`, `some message on STREAM [DATES]`
fn of_message<'a>(first: &[u8], rest: &[&'a [u8]]) -> Option<Assertion<'a>>
    ensures { MatchOption result (SpellNone (first.now ∷ codes "message" ∷ map (λ w. w.now) rest.now))
        (λ assertion. Spell (first.now ∷ codes "message" ∷ map (λ w. w.now) rest.now) assertion) }
{
    match rest {
        [on, stream, dates @ ..] => of_stream(first, on, stream, dates),
        _ => None,
    }
}

// The same, word by word.
fn of_stream<'a>(
    first: &[u8],
    on: &[u8],
    stream: &'a [u8],
    dates: &[&'a [u8]],
) -> Option<Assertion<'a>>
    ensures { MatchOption result (SpellNone (first.now ∷ codes "message" ∷ on.now ∷ stream.now ∷ map (λ w. w.now) dates.now))
        (λ assertion. Spell (first.now ∷ codes "message" ∷ on.now ∷ stream.now ∷ map (λ w. w.now) dates.now) assertion) }
{
    if on != b"on".as_slice() {
        return None;
    }
    let span = read_span(dates)?;
    if first == b"no".as_slice() {
        return Some(Assertion {
            claim: Claim::NoMessage { stream },
            span,
        });
    }
    if first == b"some".as_slice() {
        return Some(Assertion {
            claim: Claim::SomeMessage { stream },
            span,
        });
    }
    None
}

// The relation with this sign.
fn relation_of(sign: &[u8]) -> Option<Relation>
    ensures { MatchOption result ((relation : Sort) → sign.now ≢ sign_of relation) (λ relation. sign.now ≡ sign_of relation) }
{
    match sign {
        b"==" => Some(Relation::Equal),
        b"!=" => Some(Relation::Unequal),
        b"<" => Some(Relation::Less),
        b"<=" => Some(Relation::AtMost),
        b">" => Some(Relation::Greater),
        b">=" => Some(Relation::AtLeast),
        _ => None,
    }
}

// The dates that these words are, all where there is none.
fn read_span(words: &[&[u8]]) -> Option<Span>
    ensures { MatchOption result ((span : Dates) → FitSpan span → map (λ w. w.now) words.now ≢ date_words span)
        (λ span. (map (λ w. w.now) words.now ≡ date_words span) × FitSpan span) }
{
    match words {
        [] => Some(Span::Always),
        [word, dates] => of_dates(word, dates),
        _ => None,
    }
}

// The same for two words.
fn of_dates(word: &[u8], dates: &[u8]) -> Option<Span>
    ensures { MatchOption result ((span : Dates) → FitSpan span → word.now ∷ dates.now ∷ [] ≢ date_words span)
        (λ span. (word.now ∷ dates.now ∷ [] ≡ date_words span) × FitSpan span) }
{
    if word == b"from".as_slice() {
        let date = whole::number(dates)?;
        return Some(Span::From { date });
    }
    if word == b"by".as_slice() {
        let date = whole::number(dates)?;
        return Some(Span::By { date });
    }
    if word == b"at".as_slice() {
        return at_dates(dates);
    }
    None
}

// `D` or `D..D`, behind `at`
fn at_dates(dates: &[u8]) -> Option<Span>
    ensures { MatchOption result ((span : Dates) → FitSpan span → codes "at" ∷ dates.now ∷ [] ≢ date_words span)
        (λ span. (codes "at" ∷ dates.now ∷ [] ≡ date_words span) × FitSpan span) }
{
    if let Some(date) = whole::number(dates) {
        return Some(Span::At { date });
    }
    let (from, to) = two_dates(dates)?;
    Some(Span::Between { from, to })
}
