//! Where bytes are bad.
use crate::images::{counting, tick};
use psy_image::{ImageFault, decode};
use std::alloc::Global;
use std::test::Fail;

// Where the bytes are bad, if they are.
fn bad(alloc: Global, bytes: &[u8]) -> Option<u32> {
    if bytes.len() > 300 {
        return None;
    }
    match decode(alloc, bytes) {
        Err(ImageFault::Bad(place)) => Some(place),
        _ => None,
    }
}

// So many of the bytes, where there are so many.
fn front(bytes: &[u8], len: usize) -> &[u8] {
    if len <= bytes.len() {
        bytes.split_at(len).0
    } else {
        bytes
    }
}

// The same of the bytes with one that is changed.
fn bad_with(alloc: Global, at: usize, byte: u8) -> Option<u32> {
    let mut bytes = counting();
    if let Some(place) = bytes.get_mut(at) {
        *place = byte;
    }
    bad(alloc, &bytes)
}

#[test]
fn a_cut_field_is_bad_at_its_first_byte(rt: HostRuntime) {
    assert_eq!(rt; bad(rt.alloc(), &tick()), None);
    assert_eq!(rt; bad(rt.alloc(), front(&tick(), 32)), Some(29));
    assert_eq!(rt; bad(rt.alloc(), front(&tick(), 8)), Some(5));
    assert_eq!(rt; bad(rt.alloc(), front(&tick(), 4)), Some(0));
    assert_eq!(rt; bad(rt.alloc(), &[]), Some(0));
}

#[test]
fn a_byte_behind_the_last_field_is_bad(rt: HostRuntime) {
    let mut bytes = [0u8; 34];
    for (place, byte) in bytes.iter_mut().zip(&tick()) {
        *place = *byte;
    }
    assert_eq!(rt; bad(rt.alloc(), &bytes), Some(33));
}

#[test]
fn fields_out_of_range_are_bad(rt: HostRuntime) {
    const CHANGES: [(usize, u8, Option<u32>); 8] = [
        (0, 0x51, Some(0)),
        (18, 0, Some(18)),
        (22, 10, Some(22)),
        (39, 1, Some(39)),
        (47, 0, Some(47)),
        (59, 65, Some(59)),
        (72, 0, Some(72)),
        (76, 8, Some(76)),
    ];
    for (at, byte, want) in CHANGES {
        assert_eq!(rt; bad_with(rt.alloc(), at, byte), want, "byte {at}");
    }
}

#[test]
fn points_and_copies_are_those_of_the_agent(rt: HostRuntime) {
    const CHANGES: [(usize, u8, Option<u32>); 8] = [
        (80, 0, Some(80)),
        (84, 1, Some(84)),
        (92, 99, Some(92)),
        (96, 9, None),
        (100, 0, Some(100)),
        (112, 9, None),
        (128, 0, Some(128)),
        (132, 1, Some(132)),
    ];
    for (at, byte, want) in CHANGES {
        assert_eq!(rt; bad_with(rt.alloc(), at, byte), want, "byte {at}");
    }
}

#[test]
fn instructions_have_bytes_of_the_table(rt: HostRuntime) {
    const CHANGES: [(usize, u8, Option<u32>); 5] = [
        (148, 9, Some(188)),
        (148, 7, Some(183)),
        (152, 0x36, Some(152)),
        (152, 0, Some(152)),
        (162, 0x75, None),
    ];
    for (at, byte, want) in CHANGES {
        assert_eq!(rt; bad_with(rt.alloc(), at, byte), want, "byte {at}");
    }
}

#[test]
fn owners_are_judged_by_the_count_of_agents(rt: HostRuntime) -> Result<(), Fail> {
    let mut bytes = counting();
    bytes[35] = 2;
    assert_eq!(rt; bad(rt.alloc(), &bytes), Some(35));
    // The count is cut.
    assert_eq!(rt; bad(rt.alloc(), front(&bytes, 61)), Some(59));
    // A field behind the count is out of range too.
    bytes[72] = 0;
    assert_eq!(rt; bad(rt.alloc(), &bytes), Some(35));
    // The count is out of range by itself, and then a field before it.
    bytes[59] = 65;
    assert_eq!(rt; bad(rt.alloc(), &bytes), Some(59));
    bytes[47] = 0;
    assert_eq!(rt; bad(rt.alloc(), &bytes), Some(47));
    Ok(())
}

#[test]
fn a_name_is_new_and_no_reserved_word(rt: HostRuntime) {
    const CHANGES: [(usize, u8, Option<u32>); 6] = [
        (67, b'v', Some(63)),
        (67, b'c', Some(63)),
        (67, b'_', None),
        (67, b'1', Some(63)),
        (63, 0, Some(63)),
        (63, 33, Some(63)),
    ];
    for (at, byte, want) in CHANGES {
        assert_eq!(rt; bad_with(rt.alloc(), at, byte), want, "byte {at}");
    }
}

// A tick, and a clock of one tick whose name has `len` bytes.
fn named(alloc: Global, name: &[u8]) -> Option<u32> {
    let mut bytes = [0u8; 90];
    for (place, byte) in bytes.iter_mut().zip(&tick()) {
        *place = *byte;
    }
    bytes[9] = 1;
    bytes[13] = u8::try_from(name.len()).unwrap_or(0);
    for (place, byte) in bytes.iter_mut().skip(17).zip(name) {
        *place = *byte;
    }
    if let Some(place) = bytes.get_mut(name.len().saturating_add(17)) {
        *place = 1;
    }
    bad(alloc, &bytes)
}

#[test]
fn a_name_has_at_most_32_bytes(rt: HostRuntime) {
    // Behind the clock stand zeros, of which the first that is too many is bad.
    assert_eq!(rt; named(rt.alloc(), b"c"), Some(46));
    assert_eq!(rt;
        named(rt.alloc(), b"a23456789_123456789_123456789_12"),
        Some(77)
    );
    assert_eq!(rt;
        named(rt.alloc(), b"a23456789_123456789_123456789_123"),
        Some(13)
    );
    assert_eq!(rt; named(rt.alloc(), b"tick"), Some(13));
    assert_eq!(rt; named(rt.alloc(), b"ticks"), Some(50));
}
