//! An agent that counts its actions in a variable, and what becomes of it with small changes.
use crate::codes::{Frame, Room, fault};
use psy_arith::{Op2, Width};
use psy_code::{Binary, Instr};
use std::alloc::Global;

const ROOM: Room = Room {
    points: &[0, 7],
    stack: 2,
    frames: 0,
};

// `v = v + 1` in a cell, and on to the next action
fn counting() -> Option<[Instr; 8]> {
    let add = Binary::new(Op2::Add)?;
    Some([
        Instr::Load(0),
        Instr::Push(1),
        Instr::Binary(add, Width::W32),
        Instr::Store(0),
        Instr::Load(0),
        Instr::StoreCopy(0),
        Instr::Advance(1),
        Instr::Jump(0),
    ])
}

// Its fault with this room and this function.
fn in_room(alloc: Global, room: Room, frame: Option<Frame>) -> Option<(u32, u32)> {
    match counting() {
        None => Some((0, 0)),
        Some(instrs) => fault(alloc, &instrs, room, frame),
    }
}

// Its fault with another instruction at a place.
fn changed(alloc: Global, place: usize, instr: Instr) -> Option<(u32, u32)> {
    match counting() {
        None => Some((0, 0)),
        Some(mut instrs) => {
            if let Some(at) = instrs.get_mut(place) {
                *at = instr;
            }
            fault(alloc, &instrs, ROOM, None)
        }
    }
}

#[test]
fn code_that_counts_is_verified(rt: HostRuntime) {
    assert_eq!(rt; in_room(rt.alloc(), ROOM, None), None, "as it is");
}

#[test]
fn what_no_way_reaches_is_free(rt: HostRuntime) {
    let add = Binary::new(Op2::Add);
    let found = match add {
        None => Some((0, 0)),
        Some(add) => {
            let instrs = [
                Instr::Load(0),
                Instr::Push(1),
                Instr::Binary(add, Width::W32),
                Instr::Store(0),
                Instr::Load(0),
                Instr::StoreCopy(0),
                Instr::Advance(1),
                Instr::Jump(0),
                Instr::Return,
            ];
            fault(rt.alloc(), &instrs, ROOM, None)
        }
    };
    assert_eq!(rt; found, None, "a Return behind the last jump");
}

#[test]
fn points_are_where_advances_lead(rt: HostRuntime) {
    let behind = Room {
        points: &[0, 9],
        ..ROOM
    };
    assert_eq!(rt;
        in_room(rt.alloc(), behind, None),
        Some((7, 6)),
        "point 1 at 9"
    );
    let head = Room {
        points: &[9, 7],
        ..ROOM
    };
    assert_eq!(rt;
        in_room(rt.alloc(), head, None),
        Some((1, 9)),
        "point 0 at 9"
    );
}

#[test]
fn an_advance_leads_to_a_later_point(rt: HostRuntime) {
    assert_eq!(rt;
        changed(rt.alloc(), 6, Instr::Advance(0)),
        Some((7, 6)),
        "Advance 0"
    );
    assert_eq!(rt;
        changed(rt.alloc(), 6, Instr::Advance(2)),
        Some((7, 6)),
        "Advance 2"
    );
}

#[test]
fn what_is_named_is_there(rt: HostRuntime) {
    assert_eq!(rt;
        changed(rt.alloc(), 0, Instr::Load(1)),
        Some((4, 0)),
        "Load 1"
    );
    let past = Instr::Past {
        variable: 0,
        back: 1,
    };
    assert_eq!(rt; changed(rt.alloc(), 0, past), Some((5, 0)), "Past (0, 1)");
}

#[test]
fn no_place_has_two_owners(rt: HostRuntime) {
    let frame = Frame {
        entry: 0,
        locals: 0,
        counters: 0,
    };
    assert_eq!(rt;
        in_room(rt.alloc(), ROOM, Some(frame)),
        Some((2, 0)),
        "a function at 0"
    );
}
