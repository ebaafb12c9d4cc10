//! Bytes and rows of instructions.
use psy_arith::{Op1, Op2, Row, Width};
use psy_code::{Binary, Instr, instructions};

#[test]
fn an_instruction_has_its_byte_and_its_row(rt: HostRuntime) {
    let table = instructions();
    for (instr, byte, pops, pushes) in [
        (Instr::Push(-1), 0x01, 0, 1),
        (Instr::Load(2), 0x02, 0, 1),
        (Instr::Store(2), 0x03, 1, 0),
        (Instr::LoadCell { base: 1, cells: 2 }, 0x04, 1, 1),
        (Instr::StoreCell { base: 1, cells: 2 }, 0x05, 2, 0),
        (Instr::LoadCopy(3), 0x06, 0, 1),
        (Instr::StoreCopy(3), 0x07, 1, 0),
        (
            Instr::Past {
                variable: 3,
                back: 0,
            },
            0x08,
            0,
            1,
        ),
        (Instr::Ready(4), 0x09, 0, 1),
        (Instr::Take(4), 0x0A, 0, 1),
        (
            Instr::Send {
                stream: 4,
                after: 0,
                clock: 1,
            },
            0x0B,
            1,
            0,
        ),
        (Instr::Jump(5), 0x0C, 0, 0),
        (Instr::JumpZero(5), 0x0D, 1, 0),
        (Instr::AndTest(5), 0x0E, 1, 1),
        (Instr::OrTest(5), 0x0F, 1, 1),
        (Instr::Truth, 0x10, 1, 1),
        (Instr::Zero(0), 0x11, 0, 0),
        (
            Instr::Guard {
                counter: 0,
                bound: 9,
            },
            0x12,
            1,
            1,
        ),
        (Instr::Call(6), 0x13, 0, 0),
        (Instr::Return, 0x14, 1, 1),
        (Instr::Advance(1), 0x15, 0, 0),
        (Instr::Unary(Op1::Neg, Width::W32), 0x30, 1, 1),
        (Instr::Unary(Op1::Flip, Width::W32), 0x31, 1, 1),
        (Instr::Unary(Op1::Not, Width::W32), 0x32, 1, 1),
        (Instr::Unary(Op1::Not, Width::W8), 0x32, 1, 1),
        (Instr::Cast(Width::W8), 0x33, 1, 1),
        (Instr::Cast(Width::W16), 0x34, 1, 1),
        (Instr::Cast(Width::W32), 0x35, 1, 1),
        (Instr::Unary(Op1::Neg, Width::W8), 0x70, 1, 1),
        (Instr::Unary(Op1::Flip, Width::W8), 0x71, 1, 1),
        (Instr::Unary(Op1::Neg, Width::W16), 0x72, 1, 1),
        (Instr::Unary(Op1::Flip, Width::W16), 0x73, 1, 1),
        (Instr::Unary(Op1::Neg, Width::W64), 0x74, 1, 1),
        (Instr::Unary(Op1::Flip, Width::W64), 0x75, 1, 1),
    ] {
        assert_eq!(rt; instr.byte(), byte, "byte of {instr:?}");
        assert_eq!(rt;
            table.find(byte),
            Some(Row { byte, pops, pushes }),
            "row of {instr:?}"
        );
    }
    for byte in [0x00, 0x16, 0x1F, 0x36, 0x3F, 0x76, 0xFF] {
        assert_eq!(rt; table.find(byte), None, "no instruction has {byte}");
    }
}

#[test]
fn a_binary_operator_has_its_byte(rt: HostRuntime) {
    let table = instructions();
    for (op, at_8, at_16, at_32, at_64) in [
        (Op2::Mul, 0x40, 0x50, 0x20, 0x60),
        (Op2::Div, 0x41, 0x51, 0x21, 0x61),
        (Op2::Rem, 0x42, 0x52, 0x22, 0x62),
        (Op2::Add, 0x43, 0x53, 0x23, 0x63),
        (Op2::Sub, 0x44, 0x54, 0x24, 0x64),
        (Op2::Shl, 0x45, 0x55, 0x25, 0x65),
        (Op2::Shr, 0x46, 0x56, 0x26, 0x66),
        (Op2::Lt, 0x47, 0x57, 0x27, 0x67),
        (Op2::Le, 0x48, 0x58, 0x28, 0x68),
        (Op2::Gt, 0x49, 0x59, 0x29, 0x69),
        (Op2::Ge, 0x4A, 0x5A, 0x2A, 0x6A),
        (Op2::Eq, 0x4B, 0x5B, 0x2B, 0x6B),
        (Op2::Ne, 0x4C, 0x5C, 0x2C, 0x6C),
        (Op2::And, 0x4D, 0x5D, 0x2D, 0x6D),
        (Op2::Xor, 0x4E, 0x5E, 0x2E, 0x6E),
        (Op2::Or, 0x4F, 0x5F, 0x2F, 0x6F),
    ] {
        let operator = Binary::new(op).expect(&rt, "an instruction's operator");
        assert_eq!(rt; operator.op(), op, "operator of {operator:?}");
        for (width, byte) in [
            (Width::W8, at_8),
            (Width::W16, at_16),
            (Width::W32, at_32),
            (Width::W64, at_64),
        ] {
            assert_eq!(rt;
                Instr::Binary(operator, width).byte(),
                byte,
                "byte of {operator:?} at {width:?}"
            );
            assert_eq!(rt;
                table.find(byte),
                Some(Row {
                    byte,
                    pops: 2,
                    pushes: 1
                }),
                "row of {op:?} at {width:?}"
            );
        }
    }
    for op in [Op2::AndAnd, Op2::OrOr] {
        assert_eq!(rt; Binary::new(op), None, "no instruction has {op:?}");
    }
}
