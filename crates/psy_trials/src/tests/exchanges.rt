//! What actions look at, take and send. Costs are worked out by hand from the table of costs: a look, `ready`
//! and `take` cost 1, a `send` 1 more than its value.

use crate::acting::{Act, Scene, acts_of, expect_acts};
use psy_code::Sent;
use psy_machine::Step;
use std::alloc::AllocGlobal;
use std::process::Abort;
use std::test::Fail;

/// Two agents that own variables and receive streams: `v` and `x` are of A, `w` of B; `s` is to B, `r` to A.
const PAIR: &str = "
    tick 50; clock c = 1 * tick; clock d = 2 * c;
    temporal v of A on c = 4 depth 1;
    temporal w of B on c = 5 depth 2;
    temporal x of A on d = 6 depth 1;
    stream s to B keep 1 on c;
    stream r to A keep 1 on d;
    agent A on c budget 40 { int n = 0; body {
        v = v + 1; x = x * 2 + past(w, 1);
        send v to s after 0 on c; send x to s after 3 on d; send ready(r) to r after 1024 on c;
        advance 1 on c; } }
    agent B on d budget 40 { body {
        w = w + take(s); w = w * 100 + take(s); send w to r after 1 on d; advance 1 on c; } }
";

const FIRST: Scene<'static> = Scene {
    text: PAIR,
    agent: 0,
    variable: 0,
    pasts: &[&[1], &[2, 3], &[4]],
    messages: &[&[7, 8, 9], &[30, 31]],
};

const SECOND: Scene<'static> = Scene {
    agent: 1,
    variable: 1,
    ..FIRST
};

#[test]
fn agents_keep_the_copies_of_what_they_own(rt: HostRuntime) -> Result<(), Fail> {
    // 4 for v, 6 for x, 2 for each send, 1 to end.
    let counted = [(17, Step::Ended(1), 5), (18, Step::Ended(1), 6)];
    expect_acts(&rt, &FIRST, &counted, "v of the first agent")?;
    let doubled = [(17, Step::Ended(1), 15), (18, Step::Ended(1), 33)];
    let scene = Scene {
        variable: 2,
        ..FIRST
    };
    expect_acts(&rt, &scene, &doubled, "x of the first agent")?;
    // 4 for the first take, 6 for the second, 2 for the send, 1 to end; each action sees the same messages.
    let taken = [(13, Step::Ended(1), 1208), (14, Step::Ended(1), 121_508)];
    expect_acts(&rt, &SECOND, &taken, "w of the second agent")
}

fn sent(stream: u32, value: i32, after: u32, clock: u32) -> Sent {
    Sent {
        stream,
        value,
        after,
        clock,
    }
}

// Compares what an action sent.
fn expect_sends(rt: &impl Abort, act: &Act, wanted: &[Sent], message: &str) {
    let look = &act.look;
    assert_eq!(rt; look.sends.as_slice(), wanted, "{message}");
}

#[test]
fn sends_come_in_the_order_of_the_text(rt: HostRuntime) -> Result<(), Fail> {
    let acts = acts_of(&rt, &FIRST, 2)?;
    assert_eq!(rt; acts.len(), 2);
    let wanted = [
        [sent(0, 5, 0, 0), sent(0, 15, 3, 1), sent(1, 2, 1024, 0)],
        [sent(0, 6, 0, 0), sent(0, 33, 3, 1), sent(1, 2, 1024, 0)],
    ];
    for (act, sends) in acts.iter().zip(wanted.iter()) {
        expect_sends(&rt, act, sends, "the first agent");
    }
    let acts = acts_of(&rt, &SECOND, 1)?;
    assert_eq!(rt; acts.len(), 1);
    expect_sends(&rt, &acts[0], &[sent(1, 1208, 1, 1)], "the second agent");
    Ok(())
}

const HEAD: &str =
    "tick 50; clock c = 1 * tick; temporal v of A on c = 0 depth 2; input i on c = 0 depth 1; stream s to A keep 1 on c;";

/// Statements of an agent that sees 20 and then 10 of `v`, 9 of the input `i` and the messages 7 and 8; the
/// cost of its first action, `v` then, the last look, and the messages not taken.
type Case = (&'static str, (u64, i32), Option<(u32, u32)>, &'static [i32]);

const SEEN: [Case; 8] = [
    ("v = take(s);", (3, 7), None, &[8]),
    ("v = take(s) * 10 + take(s);", (7, 78), None, &[]),
    ("v = ready(s);", (3, 2), None, &[7, 8]),
    ("n = take(s); v = ready(s);", (5, 1), None, &[8]),
    ("v = past(v, 0);", (3, 20), Some((0, 0)), &[7, 8]),
    (
        "v = past(v, 0) - past(v, 1);",
        (5, 10),
        Some((0, 1)),
        &[7, 8],
    ),
    (
        "v = past(v, 1) + past(i, 0);",
        (5, 19),
        Some((1, 0)),
        &[7, 8],
    ),
    // The loop takes both: 1, three tests of 3, two turns of 2 + 1.
    (
        "while (ready(s)) max 2 { v = take(s); }",
        (1 + 9 + 6 + 1, 8),
        None,
        &[],
    ),
];

// Compares what the first action of an agent of these statements sees.
fn compare(rt: &(impl Abort + AllocGlobal), case: &Case) -> Result<(), Fail> {
    let &(stmts, (cost, copy), noted, left) = case;
    let text = format!(in rt.alloc();
        "{HEAD} agent A on c budget 40 {{ int n = 0; body {{ {stmts} advance 1 on c; }} }}"
    )?;
    let scene = Scene {
        text: text.as_str(),
        agent: 0,
        variable: 0,
        pasts: &[&[20, 10], &[9]],
        messages: &[&[7, 8]],
    };
    let acts = acts_of(rt, &scene, 1)?;
    assert_eq!(rt; acts.len(), 1);
    let act = &acts[0];
    assert_eq!(rt; (act.cost, act.copy), (cost, copy), "{stmts}");
    let look = &act.look;
    assert_eq!(rt; look.noted, noted, "the last look of {stmts}");
    assert_eq!(rt; look.messages.len(), 1);
    for messages in look.messages.iter() {
        match messages {
            Some(messages) => assert_eq!(rt; messages.as_slice(), left, "left by {stmts}"),
            None => assert!(rt; false, "no messages: {stmts}"),
        }
    }
    Ok(())
}

#[test]
fn looks_and_takes(rt: HostRuntime) -> Result<(), Fail> {
    for case in &SEEN {
        compare(&rt, case)?;
    }
    Ok(())
}
