//! Words that are two dates.
ghost use Rattle.std.specs.Prelude.{◌≡◌, ◌≢◌, ◌^◌, ◌<◌, ◌++◌, ℕ, IfSome, List, MatchOption, None, codes, decimal};

use psy_text::laws::one_number;
use psy_text::whole;

/// The two dates that a word is, `D..D`.
pub fn two_dates(word: &[u8]) -> Option<(u64, u64)>
    ensures some { IfSome result (λ dates. word.now ≡ decimal dates.0 ++ codes ".." ++ decimal dates.1) }
    ensures none { result ≡ None → (from to : ℕ) → from < 2 ^ 64 → to < 2 ^ 64 → word.now ≢ decimal from ++ codes ".." ++ decimal to }
{
    one_number();
    let (from, rest) = psy_text::front::number(word)?;
    let behind = behind_points(rest)?;
    let to = whole::number(behind)?;
    Some((from, to))
}

// What stands behind two points at the front of a text.
fn behind_points(text: &[u8]) -> Option<&[u8]>
    ensures { MatchOption result ((rest : List ℕ) → text.now ≢ codes ".." ++ rest) (λ rest. text.now ≡ codes ".." ++ rest.now) }
{
    match text {
        [b'.', b'.', rest @ ..] => Some(rest),
        _ => None,
    }
}
