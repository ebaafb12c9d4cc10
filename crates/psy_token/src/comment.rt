//! Comments.
ghost use Rattle.std.specs.Prelude.{◌≡◌, ◌<◌, ◌≤◌, IfSome, IsTrue, length};
ghost use Rattle.psy_token.specs.Reading.{close_len, next_is};

fn next_is(byte: u8, rest: &[u8]) -> bool
    ensures value { result ≡ next_is byte rest.now }
    ensures more { IsTrue result → 0 < length rest.now }
{
    match rest {
        [next, ..] => *next == byte,
        [] => false,
    }
}

/// How many bytes a block comment has behind its `/*`, with the first `*/`.
pub fn close_len(inside: &[u8]) -> Option<usize>
    ensures value { result ≡ close_len inside.now }
    ensures within { IfSome result (λ len. (2 ≤ len) × (len ≤ length inside.now)) }
{
    for at in 0..inside.len() {
        if inside[at] == b'*' && next_is(b'/', &inside[at + 1..]) {
            return Some(at + 2);
        }
    }
    None
}
