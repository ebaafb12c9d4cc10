//! The operators at 32 bits on numbers worked out by hand, and tables.
use psy_arith::widths::{operate1, operate2};
use psy_arith::{Op1, Op2, Row, Table, Trap, Width, apply1, apply2};
use std::process::Abort;

const MIN: i32 = i32::MIN;

const MAX: i32 = i32::MAX;

/// An operator of two operands with both of them, and its value.
type Two = (Op2, i32, i32, Result<i32, Trap>);

/// An operator of one operand with it, and its value.
type One = (Op1, i32, i32);

fn compare_two(rt: &impl Abort, cases: &[Two]) {
    for &(op, a, b, want) in cases {
        let (left, right) = (i64::from(a), i64::from(b));
        let want = want.map(i64::from);
        assert_eq!(rt;
            apply2::<32>(op, left, right),
            want,
            "{op:?} of {a} and {b}"
        );
        assert_eq!(rt;
            operate2(Width::W32, op, left, right),
            want,
            "{op:?} of {a} and {b}"
        );
    }
}

fn compare_one(rt: &impl Abort, cases: &[One]) {
    for &(op, a, want) in cases {
        let (operand, want) = (i64::from(a), i64::from(want));
        assert_eq!(rt; apply1::<32>(op, operand), want, "{op:?} of {a}");
        assert_eq!(rt; operate1(Width::W32, op, operand), want, "{op:?} of {a}");
    }
}

#[test]
fn products_and_quotients(rt: HostRuntime) {
    const CASES: [Two; 34] = [
        (Op2::Mul, 0, MIN, Ok(0)),
        (Op2::Mul, 1, MAX, Ok(MAX)),
        (Op2::Mul, -1, MIN, Ok(MIN)),
        (Op2::Mul, MIN, -1, Ok(MIN)),
        (Op2::Mul, MIN, 1, Ok(MIN)),
        (Op2::Mul, MAX, 0, Ok(0)),
        (Op2::Mul, MAX, MAX, Ok(1)),
        (Op2::Mul, MAX, MIN, Ok(MIN)),
        (Op2::Mul, 65_536, 65_536, Ok(0)),
        (Op2::Mul, 65_536, 32_768, Ok(MIN)),
        (Op2::Div, 0, MIN, Ok(0)),
        (Op2::Div, 1, MAX, Ok(0)),
        (Op2::Div, -1, 1, Ok(-1)),
        (Op2::Div, MIN, -1, Ok(MIN)),
        (Op2::Div, MIN, MAX, Ok(-1)),
        (Op2::Div, MAX, MIN, Ok(0)),
        (Op2::Div, MAX, -1, Ok(-2_147_483_647)),
        (Op2::Div, -7, 2, Ok(-3)),
        (Op2::Div, 7, -2, Ok(-3)),
        (Op2::Div, 5, 0, Err(Trap::Divide)),
        (Op2::Div, 0, 0, Err(Trap::Divide)),
        (Op2::Div, MIN, 0, Err(Trap::Divide)),
        (Op2::Rem, 0, MIN, Ok(0)),
        (Op2::Rem, 1, MAX, Ok(1)),
        (Op2::Rem, -1, MIN, Ok(-1)),
        (Op2::Rem, MIN, -1, Ok(0)),
        (Op2::Rem, MIN, MAX, Ok(-1)),
        (Op2::Rem, MAX, 1, Ok(0)),
        (Op2::Rem, MAX, MIN, Ok(MAX)),
        (Op2::Rem, -7, 2, Ok(-1)),
        (Op2::Rem, 7, -2, Ok(1)),
        (Op2::Rem, 5, 0, Err(Trap::Divide)),
        (Op2::Rem, 0, 0, Err(Trap::Divide)),
        (Op2::Rem, MAX, 0, Err(Trap::Divide)),
    ];
    compare_two(&rt, &CASES);
}

#[test]
fn sums_and_differences(rt: HostRuntime) {
    const CASES: [Two; 16] = [
        (Op2::Add, 0, MIN, Ok(MIN)),
        (Op2::Add, 1, -1, Ok(0)),
        (Op2::Add, 1, MAX, Ok(MIN)),
        (Op2::Add, -1, MIN, Ok(MAX)),
        (Op2::Add, MIN, 0, Ok(MIN)),
        (Op2::Add, MIN, MIN, Ok(0)),
        (Op2::Add, MAX, 1, Ok(MIN)),
        (Op2::Add, MAX, MAX, Ok(-2)),
        (Op2::Sub, 0, MIN, Ok(MIN)),
        (Op2::Sub, 0, 1, Ok(-1)),
        (Op2::Sub, 1, MAX, Ok(-2_147_483_646)),
        (Op2::Sub, -1, 0, Ok(-1)),
        (Op2::Sub, -1, MIN, Ok(MAX)),
        (Op2::Sub, MIN, 1, Ok(MAX)),
        (Op2::Sub, MIN, MAX, Ok(1)),
        (Op2::Sub, MAX, -1, Ok(MIN)),
    ];
    compare_two(&rt, &CASES);
}

#[test]
fn shifts(rt: HostRuntime) {
    const CASES: [Two; 32] = [
        (Op2::Shl, 0, 33, Ok(0)),
        (Op2::Shl, 1, -1, Ok(MIN)),
        (Op2::Shl, 1, 31, Ok(MIN)),
        (Op2::Shl, 1, 32, Ok(1)),
        (Op2::Shl, 1, 33, Ok(2)),
        (Op2::Shl, 1, MIN, Ok(1)),
        (Op2::Shl, 1, MAX, Ok(MIN)),
        (Op2::Shl, -1, 31, Ok(MIN)),
        (Op2::Shl, -1, 33, Ok(-2)),
        (Op2::Shl, MIN, 0, Ok(MIN)),
        (Op2::Shl, MIN, 1, Ok(0)),
        (Op2::Shl, MAX, 1, Ok(-2)),
        (Op2::Shl, MAX, -1, Ok(MIN)),
        (Op2::Shl, MAX, 32, Ok(MAX)),
        (Op2::Shr, 0, 31, Ok(0)),
        (Op2::Shr, 1, 0, Ok(1)),
        (Op2::Shr, 1, -1, Ok(0)),
        (Op2::Shr, 1, 32, Ok(1)),
        (Op2::Shr, 1, 33, Ok(0)),
        (Op2::Shr, -1, 31, Ok(-1)),
        (Op2::Shr, -1, 1, Ok(-1)),
        (Op2::Shr, -8, 1, Ok(-4)),
        (Op2::Shr, MIN, -1, Ok(-1)),
        (Op2::Shr, MIN, 32, Ok(MIN)),
        (Op2::Shr, MIN, 33, Ok(-1_073_741_824)),
        (Op2::Shr, MIN, MIN, Ok(MIN)),
        (Op2::Shr, MIN, MAX, Ok(-1)),
        (Op2::Shr, MAX, 31, Ok(0)),
        (Op2::Shr, MAX, 33, Ok(1_073_741_823)),
        (Op2::Shr, MIN, 31, Ok(-1)),
        (Op2::Shr, -8, 33, Ok(-4)),
        (Op2::Shr, MAX, -1, Ok(0)),
    ];
    compare_two(&rt, &CASES);
}

#[test]
fn comparisons(rt: HostRuntime) {
    const CASES: [Two; 42] = [
        (Op2::Lt, 0, MIN, Ok(0)),
        (Op2::Lt, 1, MAX, Ok(1)),
        (Op2::Lt, -1, 0, Ok(1)),
        (Op2::Lt, -1, -1, Ok(0)),
        (Op2::Lt, MIN, -1, Ok(1)),
        (Op2::Lt, MAX, 1, Ok(0)),
        (Op2::Lt, MIN, MAX, Ok(1)),
        (Op2::Lt, MAX, MIN, Ok(0)),
        (Op2::Le, 0, MIN, Ok(0)),
        (Op2::Le, 1, MAX, Ok(1)),
        (Op2::Le, -1, 0, Ok(1)),
        (Op2::Le, -1, -1, Ok(1)),
        (Op2::Le, MIN, -1, Ok(1)),
        (Op2::Le, MAX, 1, Ok(0)),
        (Op2::Le, MIN, MIN, Ok(1)),
        (Op2::Gt, 0, MIN, Ok(1)),
        (Op2::Gt, 1, MAX, Ok(0)),
        (Op2::Gt, -1, 0, Ok(0)),
        (Op2::Gt, -1, -1, Ok(0)),
        (Op2::Gt, MIN, -1, Ok(0)),
        (Op2::Gt, MAX, 1, Ok(1)),
        (Op2::Gt, -1, MIN, Ok(1)),
        (Op2::Ge, 0, MIN, Ok(1)),
        (Op2::Ge, 1, MAX, Ok(0)),
        (Op2::Ge, -1, 0, Ok(0)),
        (Op2::Ge, -1, -1, Ok(1)),
        (Op2::Ge, MIN, -1, Ok(0)),
        (Op2::Ge, MAX, 1, Ok(1)),
        (Op2::Eq, 0, MIN, Ok(0)),
        (Op2::Eq, 1, MAX, Ok(0)),
        (Op2::Eq, -1, 0, Ok(0)),
        (Op2::Eq, -1, -1, Ok(1)),
        (Op2::Eq, MIN, MIN, Ok(1)),
        (Op2::Eq, MAX, 1, Ok(0)),
        (Op2::Eq, MIN, 0, Ok(0)),
        (Op2::Ne, 0, MIN, Ok(1)),
        (Op2::Ne, 1, MAX, Ok(1)),
        (Op2::Ne, -1, 0, Ok(1)),
        (Op2::Ne, -1, -1, Ok(0)),
        (Op2::Ne, MIN, MIN, Ok(0)),
        (Op2::Ne, MAX, 1, Ok(1)),
        (Op2::Ne, MIN, 0, Ok(1)),
    ];
    compare_two(&rt, &CASES);
}

#[test]
fn bits_and_truth(rt: HostRuntime) {
    const CASES: [Two; 34] = [
        (Op2::And, 0, -1, Ok(0)),
        (Op2::And, 1, MAX, Ok(1)),
        (Op2::And, -1, MIN, Ok(MIN)),
        (Op2::And, MIN, 1, Ok(0)),
        (Op2::And, MAX, 0, Ok(0)),
        (Op2::And, 6, 3, Ok(2)),
        (Op2::Xor, 0, -1, Ok(-1)),
        (Op2::Xor, 1, MAX, Ok(2_147_483_646)),
        (Op2::Xor, -1, MIN, Ok(MAX)),
        (Op2::Xor, MIN, 1, Ok(-2_147_483_647)),
        (Op2::Xor, MAX, 0, Ok(MAX)),
        (Op2::Xor, 6, 3, Ok(5)),
        (Op2::Or, 0, -1, Ok(-1)),
        (Op2::Or, 1, MAX, Ok(MAX)),
        (Op2::Or, -1, MIN, Ok(-1)),
        (Op2::Or, MIN, 1, Ok(-2_147_483_647)),
        (Op2::Or, MAX, 0, Ok(MAX)),
        (Op2::Or, 6, 3, Ok(7)),
        (Op2::Or, MIN, MAX, Ok(-1)),
        (Op2::AndAnd, 0, -1, Ok(0)),
        (Op2::AndAnd, 1, MAX, Ok(1)),
        (Op2::AndAnd, -1, MIN, Ok(1)),
        (Op2::AndAnd, MIN, 1, Ok(1)),
        (Op2::AndAnd, MAX, 0, Ok(0)),
        (Op2::AndAnd, 0, 0, Ok(0)),
        (Op2::AndAnd, MIN, MIN, Ok(1)),
        (Op2::AndAnd, MIN, 0, Ok(0)),
        (Op2::OrOr, 0, -1, Ok(1)),
        (Op2::OrOr, 1, MAX, Ok(1)),
        (Op2::OrOr, -1, MIN, Ok(1)),
        (Op2::OrOr, MIN, 1, Ok(1)),
        (Op2::OrOr, MAX, 0, Ok(1)),
        (Op2::OrOr, 0, 0, Ok(0)),
        (Op2::OrOr, 0, MIN, Ok(1)),
    ];
    compare_two(&rt, &CASES);
}

#[test]
fn one_operand(rt: HostRuntime) {
    const CASES: [One; 15] = [
        (Op1::Neg, 0, 0),
        (Op1::Neg, 1, -1),
        (Op1::Neg, -1, 1),
        (Op1::Neg, MIN, MIN),
        (Op1::Neg, MAX, -2_147_483_647),
        (Op1::Flip, 0, -1),
        (Op1::Flip, 1, -2),
        (Op1::Flip, -1, 0),
        (Op1::Flip, MIN, MAX),
        (Op1::Flip, MAX, MIN),
        (Op1::Not, 0, 1),
        (Op1::Not, 1, 0),
        (Op1::Not, -1, 0),
        (Op1::Not, MIN, 0),
        (Op1::Not, MAX, 0),
    ];
    compare_one(&rt, &CASES);
}

fn row(byte: u8) -> Row {
    Row {
        byte,
        pops: 2,
        pushes: 1,
    }
}

#[test]
fn rows_that_rise_make_a_table(rt: HostRuntime) {
    let cases = [
        (0, 1, 2, true),
        (3, 7, 255, true),
        (3, 3, 7, false),
        (7, 3, 8, false),
        (3, 7, 7, false),
        (3, 7, 6, false),
    ];
    for (first, second, third, want) in cases {
        let table = Table::new([row(first), row(second), row(third)]);
        assert_eq!(rt; table.is_some(), want, "of {first}, {second}, {third}");
    }
    assert!(rt; Table::<0>::new([]).is_some(), "of no rows");
    assert!(rt; Table::new([row(9)]).is_some(), "of one row");
}

fn found(byte: u8) -> Option<Row> {
    Table::new([row(3), row(7), row(200)])?.find(byte)
}

#[test]
fn rows_are_found_by_their_bytes(rt: HostRuntime) {
    let cases = [
        (3, Some(row(3))),
        (7, Some(row(7))),
        (200, Some(row(200))),
        (0, None),
        (5, None),
        (8, None),
        (201, None),
    ];
    for (byte, want) in cases {
        assert_eq!(rt; found(byte), want, "of {byte}");
    }
}
