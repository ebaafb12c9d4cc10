//! Names behind one another.
ghost use Rattle.std.specs.Prelude.{◌≡◌, IfOk, map};
ghost use Rattle.psy_slip.specs.Listings.{between, listed};

use crate::sentences::QUOTED;
use psy_page::Piece::Shown;
use psy_page::fill;
use std::alloc::{AllocError, Global};

/// Names as they are shown, in quotes, with commas between them, and this before the last.
pub fn listed(alloc: Global, last: &[u8], names: &[&[u8]]) -> Result<Vec<u8>, AllocError>
    ensures { IfOk result (λ list. list.items ≡ listed last.now (map (λ w. w.now) names.now)) }
{
    let mut list = Vec::new(alloc);
    let mut left = names;
    'each: while let [name, more @ ..] = left {
        fill(&mut list, QUOTED, &[Shown(name)])?;
        list.extend_from_slice(between(last, more))?;
        left = more;
    }
    Ok(list)
}

// What stands between a name and these behind it.
fn between<'a>(last: &'a [u8], behind: &[&[u8]]) -> &'a [u8]
    ensures { result.now ≡ between last.now (map (λ w. w.now) behind.now) }
{
    match behind {
        [] => b"",
        [_] => last,
        [_, _, ..] => b", ",
    }
}
