//! Small texts, read and written.
use psy_text::front::{name, number, short, value};
use psy_text::line::cut_line;
use psy_text::whole;
use psy_text::word::{self, Cut, cut_word};
use psy_text::write::{add_labelled, add_value, joined};
use std::test::Fail;

const NAME: &[u8] = b"abcdefghijklmnopqrstuvwxyz_01234";

const LONG: &[u8] = b"abcdefghijklmnopqrstuvwxyz_012345";

type Front<'a, T> = Option<(T, &'a [u8])>;

#[test]
fn names_are_read(rt: HostRuntime) {
    let cases: [(&[u8], Front<&[u8]>); 11] = [
        (b"", None),
        (b" a", None),
        (b"9a", None),
        (b"-", None),
        (b"a", Some((b"a", b""))),
        (b"_", Some((b"_", b""))),
        (b"Z9 b", Some((b"Z9", b" b"))),
        (b"a-b", Some((b"a", b"-b"))),
        (b"a\xc3\xa9", Some((b"a", b"\xc3\xa9"))),
        (NAME, Some((NAME, b""))),
        (LONG, None),
    ];
    for (text, want) in cases {
        assert_eq!(rt; name(text), want, "{text:?}");
    }
}

#[test]
fn numbers_are_read(rt: HostRuntime) {
    let cases: [(&[u8], Front<u64>); 12] = [
        (b"", None),
        (b"x", None),
        (b"-1", None),
        (b"+1", None),
        (b"0", Some((0, b""))),
        (b"00", None),
        (b"01", None),
        (b"0x", Some((0, b"x"))),
        (b"10 2", Some((10, b" 2"))),
        (b"4294967296", Some((4_294_967_296, b""))),
        (
            b"18446744073709551615\n",
            Some((18_446_744_073_709_551_615, b"\n")),
        ),
        (b"18446744073709551616", None),
    ];
    for (text, want) in cases {
        assert_eq!(rt; number(text), want, "{text:?}");
    }
}

#[test]
fn short_numbers_are_read(rt: HostRuntime) {
    let cases: [(&[u8], Front<u32>); 6] = [
        (b"", None),
        (b"0", Some((0, b""))),
        (b"00", None),
        (b"4294967295,", Some((4_294_967_295, b","))),
        (b"4294967296", None),
        (b"18446744073709551616", None),
    ];
    for (text, want) in cases {
        assert_eq!(rt; short(text), want, "{text:?}");
    }
}

#[test]
fn whole_words_are_read(rt: HostRuntime) {
    assert_eq!(rt;
        whole::number(b"18446744073709551615"),
        Some(18_446_744_073_709_551_615)
    );
    assert_eq!(rt; whole::number(b"1 "), None);
    assert_eq!(rt; whole::short(b"4294967295"), Some(4_294_967_295));
    assert_eq!(rt; whole::short(b"4294967296"), None);
    assert_eq!(rt; whole::value(b"-2147483648"), Some(-2_147_483_648));
    assert_eq!(rt; whole::value(b"-0"), None);
    assert!(rt; whole::is_name(NAME));
    assert!(rt; !whole::is_name(b"a b"));
}

#[test]
fn values_are_read(rt: HostRuntime) {
    let cases: [(&[u8], Front<i32>); 13] = [
        (b"", None),
        (b"-", None),
        (b"--1", None),
        (b"- 1", None),
        (b"0", Some((0, b""))),
        (b"-0", None),
        (b"-01", None),
        (b"-1-1", Some((-1, b"-1"))),
        (b"2147483647", Some((2_147_483_647, b""))),
        (b"2147483648", None),
        (b"-2147483648 ", Some((-2_147_483_648, b" "))),
        (b"-2147483649", None),
        (b"-4294967297", None),
    ];
    for (text, want) in cases {
        assert_eq!(rt; value(text), want, "{text:?}");
    }
}

#[test]
fn words_are_numbers_or_values(rt: HostRuntime) {
    let cases: [(&[u8], Option<u64>, Option<i64>); 9] = [
        (b"", None, None),
        (b"-", None, None),
        (b"0", Some(0), Some(0)),
        (b"007", Some(7), Some(7)),
        (b"-5", None, Some(-5)),
        (b"--5", None, None),
        (b"1a", None, None),
        (
            b"999999999999",
            Some(999_999_999_999),
            Some(999_999_999_999),
        ),
        (b"0000000000001", None, None),
    ];
    for (text, number, value) in cases {
        assert_eq!(rt; word::number(text), number, "{text:?}");
        assert_eq!(rt; word::value(text), value, "{text:?}");
    }
}

// What is cut off, as a pair.
fn pair(cut: Option<Cut<'_>>) -> Front<'_, &[u8]> {
    let cut = cut?;
    Some((cut.front, cut.rest))
}

#[test]
fn lines_and_words_are_cut(rt: HostRuntime) {
    let lines: [(&[u8], Front<&[u8]>); 6] = [
        (b"", None),
        (b"a b", Some((b"a b", b""))),
        (b"a\nb\n", Some((b"a", b"b\n"))),
        (b"a\r\nb", Some((b"a", b"b"))),
        (b"a\r", Some((b"a\r", b""))),
        (b"\n\n", Some((b"", b"\n"))),
    ];
    for (text, want) in lines {
        assert_eq!(rt; pair(cut_line(text)), want, "{text:?}");
    }
    let words: [(&[u8], Front<&[u8]>); 4] = [
        (b"", None),
        (b" \t", None),
        (b" \tab\tc", Some((b"ab", b"\tc"))),
        (b"\r", Some((b"\r", b""))),
    ];
    for (text, want) in words {
        assert_eq!(rt; pair(cut_word(text)), want, "{text:?}");
    }
}

#[test]
fn numbers_and_pieces_are_written(rt: HostRuntime) -> Result<(), Fail> {
    let mut out = joined(rt.alloc(), &[b"a", b"", b"bc"])?;
    add_labelled(&mut out, b" n ", 18_446_744_073_709_551_615)?;
    add_value(&mut out, -2_147_483_648)?;
    assert_eq!(rt;
        out.as_slice(),
        b"abc n 18446744073709551615-2147483648".as_slice()
    );
    Ok(())
}
