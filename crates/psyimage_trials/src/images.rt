//! Images that were spelled by hand, and what they say.
use psy_arith::{Op2, Width};
use psy_code::{Binary, Instr};
use psy_image::{Image, decode, number};
use psy_tree::Point;
use std::test::Fail;

// A tick of ten cycles, and nothing else.
const TICK: [u8; 33] = [
    0x50, 0x53, 0x59, 0x43, 0x01, 0x0A, 0, 0, 0, 0, 0, 0, 0, 0, 0, 0, 0, 0, 0, 0, 0, 0, 0, 0, 0, 0,
    0, 0, 0, 0, 0, 0, 0,
];

// A clock of ten ticks, a variable, and an agent that counts its actions in it.
const COUNTING: [u8; 188] = [
    0x50, 0x53, 0x59, 0x43, 0x01, 0xE8, 0x03, 0x00, 0x00, 0x01, 0x00, 0x00, 0x00, 0x01, 0x00, 0x00,
    0x00, 0x63, 0x0A, 0x00, 0x00, 0x00, 0x00, 0x00, 0x00, 0x00, 0x01, 0x00, 0x00, 0x00, 0x01, 0x00,
    0x00, 0x00, 0x76, 0x01, 0x00, 0x00, 0x00, 0x00, 0x00, 0x00, 0x00, 0x00, 0x00, 0x00, 0x00, 0x01,
    0x00, 0x00, 0x00, 0x00, 0x00, 0x00, 0x00, 0x00, 0x00, 0x00, 0x00, 0x01, 0x00, 0x00, 0x00, 0x01,
    0x00, 0x00, 0x00, 0x41, 0x00, 0x00, 0x00, 0x00, 0x64, 0x00, 0x00, 0x00, 0x00, 0x00, 0x00, 0x00,
    0x02, 0x00, 0x00, 0x00, 0x00, 0x00, 0x00, 0x00, 0x00, 0x00, 0x00, 0x00, 0x64, 0x00, 0x00, 0x00,
    0x00, 0x00, 0x00, 0x00, 0x01, 0x00, 0x00, 0x00, 0x00, 0x00, 0x00, 0x00, 0x64, 0x00, 0x00, 0x00,
    0x07, 0x00, 0x00, 0x00, 0x01, 0x00, 0x00, 0x00, 0x00, 0x00, 0x00, 0x00, 0x00, 0x00, 0x00, 0x00,
    0x01, 0x00, 0x00, 0x00, 0x00, 0x00, 0x00, 0x00, 0x00, 0x00, 0x00, 0x00, 0x02, 0x00, 0x00, 0x00,
    0x00, 0x00, 0x00, 0x00, 0x08, 0x00, 0x00, 0x00, 0x02, 0x00, 0x00, 0x00, 0x00, 0x01, 0x01, 0x00,
    0x00, 0x00, 0x23, 0x03, 0x00, 0x00, 0x00, 0x00, 0x02, 0x00, 0x00, 0x00, 0x00, 0x07, 0x00, 0x00,
    0x00, 0x00, 0x15, 0x01, 0x00, 0x00, 0x00, 0x0C, 0x00, 0x00, 0x00, 0x00,
];

/// A tick of ten cycles, and nothing else. Nothing is said of its bytes, so that no proof computes with them.
pub fn tick() -> [u8; 33] {
    TICK
}

/// A clock of ten ticks, a variable, and an agent that counts its actions in it. Nothing is said of its bytes either.
pub fn counting() -> [u8; 188] {
    COUNTING
}

#[test]
fn a_tick_alone_is_an_image(rt: HostRuntime) -> Result<(), Fail> {
    let Image { unit, code } = decode(rt.alloc(), &tick())
        .ok()
        .ok_or("the bytes are an image")?;
    assert_eq!(rt; unit.quantum, 10);
    assert_eq!(rt; unit.clocks.len(), 0);
    assert_eq!(rt; unit.agents.len(), 0);
    assert_eq!(rt; code.instrs.len(), 0);
    Ok(())
}

#[test]
fn declarations_are_read(rt: HostRuntime) -> Result<(), Fail> {
    let Image { unit, .. } = decode(rt.alloc(), &counting())
        .ok()
        .ok_or("the bytes are an image")?;
    assert_eq!(rt; unit.quantum, 1000);
    assert_eq!(rt; unit.streams.len(), 0);
    for clock in unit.clocks.as_slice() {
        assert_eq!(rt; clock.period, 10);
        assert_eq!(rt; clock.first, 0);
    }
    for variable in unit.variables.as_slice() {
        assert_eq!(rt; variable.name.bytes(), b"v".as_slice());
        assert_eq!(rt; variable.owner, Some(0));
        assert_eq!(rt; variable.init, 0);
        assert_eq!(rt; variable.depth, 1);
    }
    for agent in unit.agents.as_slice() {
        const POINTS: [Point; 2] = [
            Point {
                count: 0,
                clock: 0,
                budget: 100,
            },
            Point {
                count: 1,
                clock: 0,
                budget: 100,
            },
        ];
        assert_eq!(rt; agent.name.bytes(), b"A".as_slice());
        assert_eq!(rt; agent.budget, 100);
        assert_eq!(rt; agent.points.as_slice(), POINTS.as_slice());
        assert_eq!(rt; agent.slots.len(), 0);
        assert_eq!(rt; agent.stmts.len(), 0);
    }
    assert_eq!(rt; unit.agents.len(), 1);
    Ok(())
}

#[test]
fn code_is_read(rt: HostRuntime) -> Result<(), Fail> {
    let Image { code, .. } = decode(rt.alloc(), &counting())
        .ok()
        .ok_or("the bytes are an image")?;
    for agent in code.agents.as_slice() {
        assert_eq!(rt; agent.points.as_slice(), [0, 7].as_slice());
        assert_eq!(rt; agent.cells.as_slice(), [0].as_slice());
        assert_eq!(rt; agent.copies.len(), 1);
        assert_eq!(rt; agent.stack, 2);
        assert_eq!(rt; agent.frames, 0);
    }
    let add = Binary::new(Op2::Add).ok_or("an operator on two operands")?;
    let want = [
        Instr::Load(0),
        Instr::Push(1),
        Instr::Binary(add, Width::W32),
        Instr::Store(0),
        Instr::Load(0),
        Instr::StoreCopy(0),
        Instr::Advance(1),
        Instr::Jump(0),
    ];
    assert_eq!(rt; code.instrs.as_slice(), want.as_slice());
    Ok(())
}

#[test]
fn numbers_have_the_lowest_byte_first(rt: HostRuntime) {
    const BYTES: [u8; 9] = [1, 2, 0, 0, 0, 0, 0, 0, 7];
    assert_eq!(rt; number(&BYTES, 0, 4), Some(513));
    assert_eq!(rt; number(&BYTES, 1, 8), Some(504_403_158_265_495_554));
    assert_eq!(rt; number(&BYTES, 2, 8), None);
    assert_eq!(rt; number(&BYTES, 6, 4), None);
    assert_eq!(rt; number(&BYTES, 10, 4), None);
}
