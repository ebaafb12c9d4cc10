//! The line of a place in a text.
ghost use Rattle.std.specs.Prelude.{◌≡◌, ◌≤◌, length};
ghost use Rattle.psy_spot.specs.Spots.{before_at, behind_at, line_at};

use crate::scan::{back_len, feeds};
use psy_text::run::line_len;

/// The number of a line, from 1, and its bytes before a place and from it on.
#[derive(Clone, Copy)]
pub struct Spot<'a> {
    pub line: usize,
    pub before: &'a [u8],
    pub behind: &'a [u8],
}

/// The line of a place.
pub fn spot_at(text: &[u8], place: usize) -> Spot<'_>
    requires { place ≤ length text.now }
    ensures line { result.line ≡ line_at text.now place }
    ensures before { result.before.now ≡ before_at text.now place }
    ensures behind { result.behind.now ≡ behind_at text.now place }
    ensures within { (length result.before.now ≤ length text.now) × (length result.behind.now ≤ length text.now) }
{
    let (front, back) = text.split_at(place);
    let start = front.len() - back_len(front);
    Spot {
        line: feeds(front) + 1,
        before: &front[start..],
        behind: &back[..line_len(back)],
    }
}
