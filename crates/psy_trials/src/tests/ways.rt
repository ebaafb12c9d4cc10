//! The lists of ways, of statements and of their code, by small bodies.

use crate::tests::flow::unit_with;
use psy_base::{Items, SendWay, Ways};
use psy_flow::{code_ways, ways};
use psy_gen::generate;
use std::alloc::AllocGlobal;
use std::process::Abort;
use std::test::Fail;

/// What is listed of one agent's ways: by point where they end, at what they look and what they send, and by stream the delay.
struct Listed<'a> {
    nexts: &'a [&'a [u32]],
    looks: &'a [&'a [u32]],
    /// Where a way ends, the stream and the most sends.
    sends: &'a [&'a [(u32, u32, u64)]],
    delays: &'a [u64],
}

// Compares the lists of one agent, by point.
fn expect_lists(rt: &impl Abort, lists: &Items<Items<Items<u32>>>, wanted: &[&[u32]]) {
    assert_eq!(rt; lists.len(), 1);
    let own = &lists.as_slice()[0];
    assert_eq!(rt; own.len(), wanted.len());
    for (point, list) in wanted.iter().enumerate() {
        assert!(rt; point < own.len());
        assert_eq!(rt;
            own.as_slice()[point].as_slice(),
            *list,
            "from point {point}"
        );
    }
}

// The same for sends.
fn expect_sends(
    rt: &impl Abort,
    lists: &Items<Items<Items<SendWay>>>,
    wanted: &[&[(u32, u32, u64)]],
) {
    assert_eq!(rt; lists.len(), 1);
    let own = &lists.as_slice()[0];
    assert_eq!(rt; own.len(), wanted.len());
    for (point, list) in wanted.iter().enumerate() {
        assert!(rt; point < own.len());
        let found = own.as_slice()[point].as_slice();
        assert_eq!(rt; found.len(), list.len(), "from point {point}");
        for (place, (to, stream, most)) in list.iter().enumerate() {
            assert!(rt; place < found.len());
            let way = SendWay {
                to: *to,
                stream: *stream,
                most: *most,
            };
            assert_eq!(rt; found[place], way, "from point {point}");
        }
    }
}

fn expect_ways(rt: &impl Abort, ways: &Ways, wanted: &Listed) {
    expect_lists(rt, &ways.nexts, wanted.nexts);
    expect_lists(rt, &ways.looks, wanted.looks);
    expect_sends(rt, &ways.sends, wanted.sends);
    assert_eq!(rt; ways.delays.as_slice(), wanted.delays);
}

// The ways of the statements.
fn stated(rt: &(impl Abort + AllocGlobal), stmts: &str) -> Result<Ways, Fail> {
    let unit = unit_with(rt, stmts)?;
    Ok(ways(rt.alloc(), &unit)?)
}

// The ways of their code.
fn coded(rt: &(impl Abort + AllocGlobal), stmts: &str) -> Result<Ways, Fail> {
    let unit = unit_with(rt, stmts)?;
    let code = generate(rt.alloc(), &unit)?;
    Ok(code_ways(rt.alloc(), &unit, &code)?)
}

const BRANCHES: &str =
    "if (n) { send past(v, 0) to s after 2 on c; send 2 to s after 0 on c; advance 1 on c; send past(w, 0) to r after 0 on c; } else { send 4 to s after 0 on c; advance 2 on c; }";

/// By a clock of each tick, `after 2` takes 3 * 1 - 1 ticks at most, and `after 0` none.
const OF_BRANCHES: Listed<'static> = Listed {
    nexts: &[&[1, 2], &[1, 2], &[1, 2]],
    looks: &[&[0], &[0, 1], &[0]],
    sends: &[
        &[(1, 0, 2), (2, 0, 1)],
        &[(1, 0, 2), (1, 1, 1), (2, 0, 1), (2, 1, 1)],
        &[(1, 0, 2), (2, 0, 1)],
    ],
    delays: &[2, 0],
};

#[test]
fn ways_of_statements_are_listed(rt: HostRuntime) -> Result<(), Fail> {
    let ways = stated(&rt, BRANCHES)?;
    expect_ways(&rt, &ways, &OF_BRANCHES);
    Ok(())
}

#[test]
fn ways_of_code_are_those_of_statements_where_no_loop_sends(rt: HostRuntime) -> Result<(), Fail> {
    let ways = coded(&rt, BRANCHES)?;
    expect_ways(&rt, &ways, &OF_BRANCHES);
    Ok(())
}

const TURNS: &str =
    "if (n) { while (n) max 3 { send n to s after 1 on c; } advance 1 on c; } advance 2 on c budget 9;";

/// Code may go round a loop any number of times, so the budget of a point stands for the most: the agent's 14 from the head, and 9 from the
/// second `advance`, behind which the body begins anew. From the first one no way sends. `after 1` takes 2 * 1 - 1 ticks at most.
const OF_TURNS: Listed<'static> = Listed {
    nexts: &[&[1, 2], &[2], &[1, 2]],
    looks: &[&[], &[], &[]],
    sends: &[&[(1, 0, 14)], &[], &[(1, 0, 9)]],
    delays: &[1, 0],
};

#[test]
fn a_loop_of_code_sends_what_the_budget_allows(rt: HostRuntime) -> Result<(), Fail> {
    let ways = coded(&rt, TURNS)?;
    expect_ways(&rt, &ways, &OF_TURNS);
    Ok(())
}
