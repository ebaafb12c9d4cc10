//! An agent that calls a function.
use crate::codes::{Frame, Room, fault};
use psy_arith::{Op2, Width};
use psy_code::{Binary, Instr};
use std::alloc::Global;

const PLAIN: Frame = Frame {
    entry: 4,
    locals: 0,
    counters: 0,
};

const FRAMED: Frame = Frame {
    entry: 4,
    locals: 1,
    counters: 1,
};

// The agent's part with a function of four instructions behind it.
fn of_four(
    alloc: Global,
    body: [Instr; 4],
    stack: u32,
    frames: u32,
    frame: Frame,
) -> Option<(u32, u32)> {
    let [first, second, third, fourth] = body;
    let instrs = [
        Instr::Call(0),
        Instr::Store(0),
        Instr::Advance(1),
        Instr::Jump(0),
        first,
        second,
        third,
        fourth,
    ];
    let room = Room {
        points: &[0, 3],
        stack,
        frames,
    };
    fault(alloc, &instrs, room, Some(frame))
}

// The same with a function of two instructions.
fn of_two(alloc: Global, first: Instr, second: Instr) -> Option<(u32, u32)> {
    of_four(
        alloc,
        [first, second, Instr::Return, Instr::Return],
        2,
        0,
        PLAIN,
    )
}

// A function that adds up two numbers.
fn adding(alloc: Global, stack: u32, frames: u32, frame: Frame) -> Option<(u32, u32)> {
    match Binary::new(Op2::Add) {
        None => Some((0, 0)),
        Some(add) => {
            let body = [
                Instr::Push(1),
                Instr::Push(2),
                Instr::Binary(add, Width::W32),
                Instr::Return,
            ];
            of_four(alloc, body, stack, frames, frame)
        }
    }
}

#[test]
fn a_call_has_room_for_operands(rt: HostRuntime) {
    assert_eq!(rt; adding(rt.alloc(), 2, 0, PLAIN), None, "a stack of 2");
    assert_eq!(rt;
        adding(rt.alloc(), 1, 0, PLAIN),
        Some((3, 0)),
        "a stack of 1"
    );
}

#[test]
fn a_call_has_room_for_its_frame(rt: HostRuntime) {
    assert_eq!(rt; adding(rt.alloc(), 2, 2, FRAMED), None, "frames of 2");
    assert_eq!(rt;
        adding(rt.alloc(), 2, 1, FRAMED),
        Some((4, 0)),
        "frames of 1"
    );
}

#[test]
fn a_function_that_is_not_counted_has_no_need(rt: HostRuntime) {
    let body = [Instr::Push(1), Instr::Push(2), Instr::Return, Instr::Return];
    assert_eq!(rt;
        of_four(rt.alloc(), body, 1, 0, PLAIN),
        Some((3, 6)),
        "it returns with 2 operands"
    );
}

#[test]
fn a_function_calls_those_above_it(rt: HostRuntime) {
    assert_eq!(rt;
        of_two(rt.alloc(), Instr::Call(0), Instr::Return),
        Some((6, 4)),
        "Call 0"
    );
}

#[test]
fn a_function_asks_nothing_of_the_world(rt: HostRuntime) {
    assert_eq!(rt;
        of_two(rt.alloc(), Instr::LoadCopy(0), Instr::Return),
        Some((6, 4)),
        "LoadCopy 0"
    );
    assert_eq!(rt;
        of_two(rt.alloc(), Instr::LoadCopy(1), Instr::Return),
        Some((5, 4)),
        "LoadCopy 1"
    );
}

#[test]
fn a_function_ends_no_action(rt: HostRuntime) {
    assert_eq!(rt;
        of_two(rt.alloc(), Instr::Push(0), Instr::Advance(9)),
        Some((3, 5)),
        "Advance 9 with an operand"
    );
}
