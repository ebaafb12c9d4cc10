//! Lines and horizons that were worked out by hand.

ghost use Rattle.std.specs.Prelude.{◌^◌, ◌<◌, ◌≤◌};
ghost use Rattle.psy_base.specs.declared.limits.TheConstants.{BUDGET};
ghost use Rattle.psy_window.specs.Windows.{IsEdge};

use psy_base::Edge;
use psy_rate::{Rate, SCALE, certify, horizon};
use std::test::Fail;

/// An edge of a graph of five nodes.
const fn edge(from: u32, to: u32, len: u64, due: u64, weight: u64) -> Edge
    requires from { from < 5 }
    requires to { to < 5 }
    requires after { 1 ≤ due }
    requires due { due ≤ len }
    requires weight { weight ≤ BUDGET }
    ensures { IsEdge 5 result }
{
    Edge {
        from,
        to,
        len,
        due,
        weight,
    }
}

/// A line whose numbers are told in cycles.
const fn line(rate: u64, intercept: u64) -> Rate
    requires rate { rate ≤ BUDGET }
    requires intercept { intercept ≤ BUDGET }
    ensures rate { result.rate ≤ 2 ^ 40 }
    ensures intercept { result.intercept < 2 ^ 50 }
{
    Rate {
        rate: rate * SCALE,
        intercept: intercept * SCALE,
    }
}

#[test]
fn one_action_for_ever(rt: HostRuntime) -> Result<(), Fail> {
    // 40 cycles each ten ticks: 4 a tick. No path is due before so much of it has come.
    let whole = certify(rt.alloc(), &[edge(0, 0, 10, 10, 40)], 5)?;
    assert_eq!(rt; whole, line(4, 0), "due at its end");
    // 14 cycles each three ticks, due after the first: the least whole number from 14 * 1,048,576 / 3 on. One action
    // weighs 14 * 1,048,576 - 1 * 4,893,355 more, two weigh 28 * 1,048,576 - 4 * 4,893,355 more, which is less by one.
    let early = certify(rt.alloc(), &[edge(0, 0, 3, 1, 14)], 5)?;
    let rounded = Rate {
        rate: 4_893_355,
        intercept: 9_786_709,
    };
    assert_eq!(rt; early, rounded, "due before its end");
    Ok(())
}

#[test]
fn two_advances_in_turn(rt: HostRuntime) -> Result<(), Fail> {
    // After the first action, of a tick, one of three ticks and one of a tick come in turn, of 14 cycles each: 28 in four
    // ticks, 7 a tick. The one of a tick alone weighs 14 - 7 * 1 more; with the next 28 - 7 * 4, with the one after it
    // 42 - 7 * 5.
    let edges = [
        edge(0, 1, 1, 1, 14),
        edge(1, 2, 3, 3, 14),
        edge(2, 1, 1, 1, 14),
    ];
    let turns = certify(rt.alloc(), &edges, 5)?;
    assert_eq!(rt; turns, line(7, 7));
    Ok(())
}

#[test]
fn two_clocks(rt: HostRuntime) -> Result<(), Fail> {
    // The agent goes to the next even date, then to the next that is a multiple of three: after 2, 3, 4 and 6 as after 0.
    // 36 cycles in six ticks, 6 a tick. From 2 to 4 are two actions: 18 - 6 * 2; before or behind them is less.
    let edges = [
        edge(0, 1, 2, 2, 9),
        edge(1, 4, 1, 1, 9),
        edge(2, 3, 2, 2, 9),
        edge(3, 1, 2, 2, 9),
        edge(4, 2, 1, 1, 9),
    ];
    let clocks = certify(rt.alloc(), &edges, 5)?;
    assert_eq!(rt; clocks, line(6, 6));
    Ok(())
}

#[test]
fn two_cycles_that_hardly_differ(rt: HostRuntime) -> Result<(), Fail> {
    // 1 cycle in 1,024 ticks is 1,024 parts a tick. 2 in 2,047 are less than half a part more: 1,024.5.., so 1,025.
    let edges = [edge(0, 0, 1_024, 1_024, 1), edge(0, 0, 2_047, 2_047, 2)];
    let close = certify(rt.alloc(), &edges, 5)?;
    let next = Rate {
        rate: 1_025,
        intercept: 0,
    };
    assert_eq!(rt; close, next);
    Ok(())
}

#[test]
fn the_best_path_is_not_on_the_best_cycle(rt: HostRuntime) -> Result<(), Fail> {
    // 10 cycles in ten ticks, 1 a tick, or behind them 90 in a hundred, due after five: 90 - 5 is the most. With one of the
    // others before, 100 - 15; with another behind, 180 - 105.
    let edges = [
        edge(0, 0, 10, 10, 10),
        edge(0, 1, 10, 10, 10),
        edge(1, 1, 100, 5, 90),
    ];
    let behind = certify(rt.alloc(), &edges, 5)?;
    assert_eq!(rt; behind, line(1, 85));
    Ok(())
}

#[test]
fn no_closed_path(rt: HostRuntime) -> Result<(), Fail> {
    // Nothing comes again, so the rate is 0, and the intercept what all actions weigh.
    let ends = certify(rt.alloc(), &[edge(0, 1, 5, 5, 7), edge(1, 2, 5, 1, 8)], 5)?;
    assert_eq!(rt; ends, line(0, 15), "two actions");
    let none = certify(rt.alloc(), &[], 5)?;
    assert_eq!(rt; none, line(0, 0), "no action");
    Ok(())
}

#[test]
fn the_supply_passes_the_lines(rt: HostRuntime) {
    let turns = [line(7, 7)];
    assert_eq!(rt; horizon(&turns, 20), Some(1), "7 are at most 13 by 1");
    assert_eq!(rt;
        horizon(&turns, 10),
        Some(3),
        "7 are at most 3 by 3, and not 3 by 2"
    );
    assert_eq!(rt; horizon(&turns, 7), None, "the rate is the processor");
    assert_eq!(rt; horizon(&turns, 6), None, "the rate is more");
    let steady = [line(4, 0)];
    assert_eq!(rt; horizon(&steady, 100), Some(0), "at once");
    assert_eq!(rt; horizon(&steady, 4), Some(0), "at once, with nothing left");
    let both = [line(7, 7), line(4, 0)];
    assert_eq!(rt; horizon(&both, 12), Some(7), "7 are at most 1 by 7");
    assert_eq!(rt; horizon(&[], 0), Some(0), "no agents");
}
