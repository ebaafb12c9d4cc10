//! Names that are nearly the same.
ghost use Rattle.std.specs.Prelude.{◌≡◌};
ghost use Rattle.psy_near.specs.Near.{differ_by_one, differ_here, is_near, is_slip, is_swapped};

/// Are two names nearly the same: of other case, or of three bytes and more and one slip of a key apart?
pub fn is_near(name: &[u8], other: &[u8]) -> bool
    ensures { result ≡ is_near name.now other.now }
{
    name.eq_ignore_ascii_case(other) || is_slip(name, other)
}

fn is_slip(name: &[u8], other: &[u8]) -> bool
    ensures { result ≡ is_slip name.now other.now }
{
    3 <= name.len() && (3 <= other.len() && differ_by_one(name, other))
}

// Is one byte changed, missing or too many, or are two neighbours swapped?
fn differ_by_one(name: &[u8], other: &[u8]) -> bool
    ensures { result ≡ differ_by_one name.now other.now }
{
    let mut left = name;
    let mut right = other;
    'each: while let [one, more @ ..] = left {
        let [two, rest @ ..] = right else {
            return left.len() == 1;
        };
        if one != two {
            return differ_here(left, right);
        }
        left = more;
        right = rest;
    }
    right.len() == 1
}

fn differ_here(left: &[u8], right: &[u8]) -> bool
    ensures { result ≡ differ_here left.now right.now }
{
    match (left, right) {
        ([_, more @ ..], [_, rest @ ..]) => {
            more == rest || (more == right || (left == rest || is_swapped(left, right)))
        }
        _ => false,
    }
}

fn is_swapped(left: &[u8], right: &[u8]) -> bool
    ensures { result ≡ is_swapped left.now right.now }
{
    match (left, right) {
        ([a, b, more @ ..], [c, d, rest @ ..]) => a == d && (b == c && more == rest),
        _ => false,
    }
}
