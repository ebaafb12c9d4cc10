//! What a name is by its declaration.
ghost use Rattle.std.specs.Prelude.{◌≡◌};
ghost use Rattle.std.specs.Option.{option_copied};
ghost use Rattle.psy_breach.specs.Told.{declared, declared_as, sort_words};
ghost use Rattle.psy_page.specs.Told.{said, sentence};
ghost use Rattle.psy_spot.specs.Spots.{line_at};

use crate::declared::{Sort, place_of, sort_of};
use crate::sentences as words;
use psy_page::Piece::{Long, Raw};
use psy_page::Told;
use psy_spot::feeds;
use psy_tree::Token;

/// What a name is by its declaration, the line of that, and what is told of it.
pub fn declared_as<'a>(
    text: &[u8],
    name: &'a [u8],
    declaration: &[Token],
    told: &'static [u8],
) -> Told<'a>
    ensures { sentence result ≡ declared_as text.now name.now declaration.now told.now }
{
    Told::Four(
        words::DECLARED,
        Raw(name),
        Raw(sort_words(sort_of(declaration))),
        Long(line_at(text, place_of(declaration) as usize) as u64),
        Raw(told),
    )
}

/// The same of a name that may have one.
pub fn declared<'a>(
    text: &[u8],
    name: &'a [u8],
    declaration: Option<&[Token]>,
    told: &'static [u8],
) -> Option<Told<'a>>
    ensures { said result ≡ declared text.now name.now (option_copied declaration.entry) told.now }
{
    Some(declared_as(text, name, declaration?, told))
}

// The line, counted from 1, of the byte that so many bytes come before.
#[tactic(auto, using(std::proofs::lemmas::List::take_all))]
fn line_at(text: &[u8], place: usize) -> usize
    ensures { result ≡ line_at text.now place }
{
    if place <= text.len() {
        feeds(&text[..place]) + 1
    } else {
        feeds(text) + 1
    }
}

fn sort_words(sort: Option<Sort>) -> &'static [u8]
    ensures { result.now ≡ sort_words sort }
{
    match sort {
        Some(Sort::Clock) => words::CLOCK,
        Some(Sort::Temporal) => words::TEMPORAL,
        Some(Sort::Input) => words::INPUT,
        Some(Sort::Stream) => words::STREAM,
        Some(Sort::Agent) => words::AGENT,
        Some(Sort::Function) => words::FUNCTION,
        Some(Sort::Array) => words::ARRAY,
        Some(Sort::Variable) => words::VARIABLE,
        None => words::NAME,
    }
}
