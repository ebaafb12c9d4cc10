//! What is told: a sentence, and what stands in its holes.

ghost use Rattle.std.specs.Prelude.{◌≡◌, ◌++◌, IfOk, OnOk, map, option_map};
ghost use Rattle.std.specs.Option.{option_copied};
ghost use Rattle.psy_page.specs.Told.{about, first_some, hint, said, sentence};

use crate::piece::Piece;
use crate::template::fill;
use std::alloc::{AllocError, Global};

/// A sentence, and what stands in its holes.
#[derive(Clone, Copy, Debug)]
pub enum Told<'a> {
    Plain(&'static [u8]),
    One(&'static [u8], Piece<'a>),
    Two(&'static [u8], Piece<'a>, Piece<'a>),
    Three(&'static [u8], Piece<'a>, Piece<'a>, Piece<'a>),
    Four(&'static [u8], Piece<'a>, Piece<'a>, Piece<'a>, Piece<'a>),
}

/// Adds what is told.
pub fn say(out: &mut Vec<u8>, told: Told) -> Result<(), AllocError>
    ensures { OnOk result (out.new.items ≡ out.old.items ++ sentence told.entry) }
{
    match told {
        Told::Plain(words) => out.extend_from_slice(words),
        Told::One(words, one) => fill(out, words, &[one]),
        Told::Two(words, one, two) => fill(out, words, &[one, two]),
        Told::Three(words, one, two, three) => fill(out, words, &[one, two, three]),
        Told::Four(words, one, two, three, four) => fill(out, words, &[one, two, three, four]),
    }
}

/// The first of these that tells something.
pub fn first_told<'a>(told: &[Option<Told<'a>>]) -> Option<Told<'a>>
    ensures { said result ≡ first_some (map said told.now) }
{
    let mut rest = told;
    'each: while let [first, more @ ..] = rest {
        if first.is_some() {
            return *first;
        }
        rest = more;
    }
    None
}

/// A sentence about a name, as it is shown on a screen.
pub fn about<'a>(words: &'static [u8], name: &'a [u8]) -> Told<'a>
    ensures { sentence result ≡ about words.now name.now }
{
    Told::One(words, Piece::Shown(name))
}

/// The same, where there is a name.
pub fn about_some<'a>(words: &'static [u8], name: Option<&'a [u8]>) -> Option<Told<'a>>
    ensures { said result ≡ option_map (λ name. about words.now name) (option_copied name.entry) }
{
    Some(about(words, name?))
}

/// The line in which something is told, where it is.
pub fn hint(alloc: Global, told: Option<Told>) -> Result<Vec<u8>, AllocError>
    ensures { IfOk result (λ line. line.items ≡ hint (said told.entry)) }
{
    let mut out = Vec::new(alloc);
    add_hint(&mut out, told)?;
    Ok(out)
}

/// Adds that line.
pub fn add_hint(out: &mut Vec<u8>, told: Option<Told>) -> Result<(), AllocError>
    ensures { OnOk result (out.new.items ≡ out.old.items ++ hint (said told.entry)) }
{
    let Some(told) = told else { return Ok(()) };
    out.extend_from_slice(b"hint: ")?;
    say(out, told)?;
    out.push(b'\n')?;
    Ok(())
}
