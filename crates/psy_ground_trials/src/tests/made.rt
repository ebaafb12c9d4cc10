//! Made texts, by the lines of some seeds.
use psy_make::make;
use std::alloc::AllocGlobal;
use std::process::Abort;
use std::test::Fail;

// A line of a text: its number, from 1, and what it is. All were worked out by the rule apart from the program,
// and not taken from a text that it made.
type Line = (usize, &'static str);

const OF_0: [Line; 9] = [
    (1, "tick 1000;"),
    (2, "clock c0 = 1 * tick;"),
    (3, "clock c1 = 4 * c0 + 1;"),
    (4, "clock c2 = 5 * c1 + 2;"),
    (5, "stream bus to A0 keep 1 on c1;"),
    (6, "temporal v0 of A0 on c1 = 0 depth 1;"),
    (21, "temporal v15 of A15 on c2 = 15 depth 1;"),
    (
        22,
        "agent A0 on c1 budget 50 { int n = 0; body { n = n * 3 + past(v12, 0); if (ready(bus)) { n = n + take(bus); } v0 = n; if (n & 1) { advance 1 on c1; } else { advance 2 on c1; } } }",
    ),
    (
        23,
        "agent A1 on c0 budget 50 { int n = 0; body { n = n * 9 + past(v14, 0); send n to bus after 0 on c0; v1 = n; if (n & 1) { advance 1 on c0; } else { advance 2 on c0; } } }",
    ),
];

const OF_1: [Line; 3] = [
    (6, "temporal v0 of A0 on c2 = 0 depth 1;"),
    (
        21,
        "agent A0 on c2 budget 50 { int n = 0; body { n = n * 8 + past(v1, 0); if (ready(bus)) { n = n + take(bus); } v0 = n; if (n & 1) { advance 1 on c2; } else { advance 2 on c2; } } }",
    ),
    (
        35,
        "agent A14 on c1 budget 50 { int n = 0; body { n = n * 9 + past(v13, 0); v14 = n; if (n & 1) { advance 1 on c1; } else { advance 2 on c1; } } }",
    ),
];

const OF_THE_GREATEST: [Line; 3] = [
    (7, "temporal v1 of A1 on c1 = 1 depth 1;"),
    (
        15,
        "agent A0 on c2 budget 50 { int n = 0; body { n = n * 7 + past(v6, 0); if (ready(bus)) { n = n + take(bus); } v0 = n; if (n & 1) { advance 1 on c2; } else { advance 2 on c2; } } }",
    ),
    (
        23,
        "agent A8 on c1 budget 50 { int n = 0; body { n = n * 3 + past(v8, 0); v8 = n; if (n & 1) { advance 1 on c1; } else { advance 2 on c1; } } }",
    ),
];

// The line of that number, without its line feed.
fn line(text: &[u8], number: usize) -> Option<&[u8]> {
    text.split(|byte| *byte == b'\n')
        .nth(number.wrapping_sub(1))
}

// Makes the text for this number, and compares how many lines it has and what some of them are.
fn compare(
    rt: &(impl Abort + AllocGlobal),
    seed: u32,
    count: usize,
    lines: &[Line],
) -> Result<(), Fail> {
    let text = make(rt.alloc(), seed)?;
    let feeds = text.iter().filter(|byte| **byte == b'\n').count();
    assert_eq!(rt; feeds, count, "lines for {seed}");
    assert_eq!(rt; text.last().copied(), Some(b'\n'), "the end for {seed}");
    for (number, want) in lines {
        let made = line(text.as_slice(), *number);
        assert_eq!(rt; made, Some(want.as_bytes()), "line {number} for {seed}");
    }
    Ok(())
}

// Five lines, and then two for each of 16, of 15 and of 9 agents.
#[test]
fn the_text_of_0_is_made(rt: HostRuntime) -> Result<(), Fail> {
    compare(&rt, 0, 37, &OF_0)
}

#[test]
fn the_text_of_1_is_made(rt: HostRuntime) -> Result<(), Fail> {
    compare(&rt, 1, 35, &OF_1)
}

#[test]
fn the_text_of_the_greatest_number_is_made(rt: HostRuntime) -> Result<(), Fail> {
    compare(&rt, 4_294_967_295, 23, &OF_THE_GREATEST)
}
