//! A number among bytes.
ghost use Rattle.std.specs.Prelude.{◌≡◌, ◌+◌, ◌*◌, ◌<◌, ◌≤◌, ◌^◌, ◌⊎◌, MatchOption, OnSome, IfSome, drop, length, take};
ghost use Rattle.std.specs.Int.{from_le_bytes, w32, w64};
ghost use Rattle.psy_arith.specs.Widths.{width_of};

fn short(bytes: &[u8]) -> u32
    requires { 4 ≤ length bytes.now }
    ensures { result ≡ from_le_bytes w32 (take 4 bytes.now) }
{
    u32::from_le_bytes([bytes[0], bytes[1], bytes[2], bytes[3]])
}

fn long(bytes: &[u8]) -> u64
    requires { 8 ≤ length bytes.now }
    ensures { result ≡ from_le_bytes w64 (take 8 bytes.now) }
{
    u64::from_le_bytes([
        bytes[0], bytes[1], bytes[2], bytes[3], bytes[4], bytes[5], bytes[6], bytes[7],
    ])
}

/// The number that `width` bytes are from place `at` on, the lowest first; `None` exactly where the bytes end before.
pub fn number(bytes: &[u8], at: usize, width: usize) -> Option<u64>
    requires { (width ≡ 4) ⊎ (width ≡ 8) }
    ensures value { MatchOption result (length bytes.now < at + width) (λ n. (at + width ≤ length bytes.now)
        × (n ≡ from_le_bytes (width_of (8 * width)) (take width (drop at bytes.now)))) }
    ensures fits { IfSome result (λ n. n < 2 ^ (8 * width)) }
{
    if at > bytes.len() || bytes.len() - at < width {
        return None;
    }
    let (_, rest) = bytes.split_at(at);
    if width == 4 {
        Some(u64::from(short(rest)))
    } else {
        Some(long(rest))
    }
}
