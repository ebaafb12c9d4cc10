//! Ways that come to a place with several heights, and ways that come to no end.
use crate::codes::{Room, fault};
use psy_code::Instr;
use std::alloc::Global;

// The fault of code whose point 1 is at this place.
fn with_point(alloc: Global, instrs: &[Instr], point: u32, stack: u32) -> Option<(u32, u32)> {
    let room = Room {
        points: &[0, point],
        stack,
        frames: 0,
    };
    fault(alloc, instrs, room, None)
}

// The fault of code with one point.
fn with_head(alloc: Global, instrs: &[Instr]) -> Option<(u32, u32)> {
    let room = Room {
        points: &[0],
        stack: 2,
        frames: 0,
    };
    fault(alloc, instrs, room, None)
}

#[test]
fn a_height_ends_where_too_little_is_there(rt: HostRuntime) {
    let instrs = [
        Instr::Jump(2),
        Instr::Advance(1),
        Instr::Push(0),
        Instr::JumpZero(5),
        Instr::Push(1),
        Instr::Store(0),
        Instr::Jump(1),
    ];
    assert_eq!(rt;
        with_point(rt.alloc(), &instrs, 2, 2),
        Some((3, 5)),
        "one way comes to 5 with nothing"
    );
}

#[test]
fn heights_may_rise_without_end(rt: HostRuntime) {
    let instrs = [
        Instr::Jump(3),
        Instr::Store(0),
        Instr::Advance(1),
        Instr::Push(1),
        Instr::Push(0),
        Instr::JumpZero(3),
        Instr::Jump(1),
    ];
    assert_eq!(rt;
        with_point(rt.alloc(), &instrs, 3, 999_999),
        Some((3, 1)),
        "a turn pushes one more"
    );
}

#[test]
fn a_way_goes_on_to_an_advance(rt: HostRuntime) {
    assert_eq!(rt;
        with_head(rt.alloc(), &[Instr::Push(1), Instr::Jump(0)]),
        Some((3, 0)),
        "Push 1, Jump 0"
    );
    assert_eq!(rt;
        with_head(rt.alloc(), &[Instr::Jump(0)]),
        Some((7, 0)),
        "Jump 0"
    );
}

#[test]
fn an_agent_never_returns(rt: HostRuntime) {
    assert_eq!(rt;
        with_head(rt.alloc(), &[Instr::Push(0), Instr::Return]),
        Some((7, 0)),
        "Push 0, Return"
    );
}
