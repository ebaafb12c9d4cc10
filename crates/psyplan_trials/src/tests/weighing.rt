//! Weights worked out by hand.
ghost use Rattle.std.specs.Prelude.{◌<◌, ◌≤◌};
ghost use Rattle.psy_base.specs.declared.limits.TheConstants.{BUDGET};
ghost use Rattle.psy_window.specs.Windows.{IsEdge};

use psy_base::Edge;
use psy_window::{Span, WindowFault, weights};
use std::test::Fail;

/// An edge of a graph of one point: it leads from node 0 to node 0.
const fn again(len: u64, due: u64, weight: u64) -> Edge
    requires after { 1 ≤ due }
    requires due { due ≤ len }
    requires weight { weight ≤ BUDGET }
    ensures { IsEdge 1 result }
{
    Edge {
        from: 0,
        to: 0,
        len,
        due,
        weight,
    }
}

#[test]
fn the_weights_are_those_made_by_hand(rt: HostRuntime) -> Result<(), Fail> {
    let fast = weights(rt.alloc(), &[again(2, 2, 8)], 1, Span::DueLast, 10)?;
    assert_eq!(rt;
        fast.as_slice(),
        [0, 0, 8, 8, 16, 16, 24, 24, 32, 32, 40].as_slice(),
        "each second tick"
    );
    let slow = weights(rt.alloc(), &[again(10, 10, 50)], 1, Span::DueLast, 10)?;
    assert_eq!(rt;
        slow.as_slice(),
        [0, 0, 0, 0, 0, 0, 0, 0, 0, 0, 50].as_slice(),
        "each tenth tick"
    );
    let early = weights(rt.alloc(), &[again(3, 1, 14)], 1, Span::DueLast, 5)?;
    assert_eq!(rt;
        early.as_slice(),
        [0, 14, 14, 14, 28, 28].as_slice(),
        "due before the end"
    );
    let free = weights(rt.alloc(), &[again(3, 1, 14)], 1, Span::FirstFree, 6)?;
    assert_eq!(rt;
        free.as_slice(),
        [14, 14, 14, 28, 28, 28, 42].as_slice(),
        "the first edge free"
    );
    Ok(())
}

/// An edge of the graph of a program whose agent has two dates: an advance of three ticks leads to node 1, one of a
/// tick to node 2. Each action is due a tick after its start.
const fn advance(from: u32, to: u32, len: u64) -> Edge
    requires from { from < 3 }
    requires to { to < 3 }
    requires len { 1 ≤ len }
    ensures { IsEdge 3 result }
{
    Edge {
        from,
        to,
        len,
        due: 1,
        weight: 14,
    }
}

#[test]
fn short_advances_weigh_most(rt: HostRuntime) -> Result<(), Fail> {
    let graph = [
        advance(0, 1, 3),
        advance(0, 2, 1),
        advance(1, 1, 3),
        advance(1, 2, 1),
        advance(2, 1, 3),
        advance(2, 2, 1),
    ];
    let due = weights(rt.alloc(), &graph, 3, Span::DueLast, 5)?;
    assert_eq!(rt;
        due.as_slice(),
        [0, 14, 28, 42, 56, 70].as_slice(),
        "an action a tick"
    );
    let free = weights(rt.alloc(), &graph, 3, Span::FirstFree, 5)?;
    assert_eq!(rt;
        free.as_slice(),
        [14, 28, 42, 56, 70, 84].as_slice(),
        "one action more"
    );
    Ok(())
}

#[test]
fn a_table_of_too_many_cells_is_refused(rt: HostRuntime) {
    let refused = weights(rt.alloc(), &[], 2, Span::DueLast, 2_000_000).err();
    assert_eq!(rt; refused, Some(WindowFault::Cells));
    assert!(rt; weights(rt.alloc(), &[], 2, Span::DueLast, 1_999_999).is_ok());
}
