//! A number among bytes.
ghost use Rattle.std.specs.Prelude.{◌≡◌, ◌≤◌, false, length, take, true};
ghost use Rattle.std.specs.Int.{from_le_bytes, w32, w64};
ghost use Rattle.psy_snap.specs.Reading.{found_at};

/// The number at the front.
pub fn four(bytes: &[u8]) -> u32
    requires { 4 ≤ length bytes.now }
    ensures { result ≡ from_le_bytes w32 (take 4 bytes.now) }
{
    u32::from_le_bytes([bytes[0], bytes[1], bytes[2], bytes[3]])
}

/// The long number at the front.
pub fn eight(bytes: &[u8]) -> u64
    requires { 8 ≤ length bytes.now }
    ensures { result ≡ from_le_bytes w64 (take 8 bytes.now) }
{
    u64::from_le_bytes([
        bytes[0], bytes[1], bytes[2], bytes[3], bytes[4], bytes[5], bytes[6], bytes[7],
    ])
}

/// The number at a place, where the bytes go so far.
pub fn short_at(bytes: &[u8], place: usize) -> Option<u32>
    ensures { result ≡ found_at false place bytes.now }
{
    if place > bytes.len() || bytes.len() - place < 4 {
        return None;
    }
    let (_, rest) = bytes.split_at(place);
    Some(four(rest))
}

/// The long number at a place, where the bytes go so far.
pub fn long_at(bytes: &[u8], place: usize) -> Option<u64>
    ensures { result ≡ found_at true place bytes.now }
{
    if place > bytes.len() || bytes.len() - place < 8 {
        return None;
    }
    let (_, rest) = bytes.split_at(place);
    Some(eight(rest))
}
