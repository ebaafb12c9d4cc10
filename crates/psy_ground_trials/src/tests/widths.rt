//! The operators at each other width, with its corners, and numbers taken at a width.
use psy_arith::widths::{narrow, narrowed, operate1, operate2};
use psy_arith::{Op1, Op2, Trap, Width, apply1, apply2};
use std::process::Abort;

/// An operator of two operands with both of them, and its value.
type Two = (Op2, i64, i64, Result<i64, Trap>);

/// An operator of one operand with it, and its value.
type One = (Op1, i64, i64);

fn compare_two(rt: &impl Abort, width: Width, cases: &[Two]) {
    for &(op, a, b, want) in cases {
        assert_eq!(rt; operate2(width, op, a, b), want, "{op:?} of {a} and {b}");
    }
}

fn compare_one(rt: &impl Abort, width: Width, cases: &[One]) {
    for &(op, a, want) in cases {
        assert_eq!(rt; operate1(width, op, a), want, "{op:?} of {a}");
    }
}

#[test]
fn two_operands_of_eight_bits(rt: HostRuntime) {
    const MIN: i64 = i8::MIN as i64;
    const MAX: i64 = i8::MAX as i64;
    const CASES: [Two; 46] = [
        (Op2::Mul, MIN, -1, Ok(MIN)),
        (Op2::Mul, MAX, MAX, Ok(1)),
        (Op2::Mul, 16, 16, Ok(0)),
        (Op2::Mul, 16, 8, Ok(MIN)),
        (Op2::Div, MIN, -1, Ok(MIN)),
        (Op2::Div, MIN, MAX, Ok(-1)),
        (Op2::Div, -7, 2, Ok(-3)),
        (Op2::Div, 7, -2, Ok(-3)),
        (Op2::Div, MIN, 0, Err(Trap::Divide)),
        (Op2::Rem, MIN, -1, Ok(0)),
        (Op2::Rem, -7, 2, Ok(-1)),
        (Op2::Rem, 7, -2, Ok(1)),
        (Op2::Rem, MAX, MIN, Ok(MAX)),
        (Op2::Rem, 0, 0, Err(Trap::Divide)),
        (Op2::Add, MAX, 1, Ok(MIN)),
        (Op2::Add, MIN, MIN, Ok(0)),
        (Op2::Sub, MIN, 1, Ok(MAX)),
        (Op2::Sub, 0, MIN, Ok(MIN)),
        (Op2::Add, 100, 100, Ok(-56)),
        (Op2::Shl, 1, 7, Ok(MIN)),
        (Op2::Shl, 1, 8, Ok(1)),
        (Op2::Shl, 1, 9, Ok(2)),
        (Op2::Shl, 1, -1, Ok(MIN)),
        (Op2::Shl, 1, MIN, Ok(1)),
        (Op2::Shl, MAX, 1, Ok(-2)),
        (Op2::Shr, MIN, 7, Ok(-1)),
        (Op2::Shr, MIN, 8, Ok(MIN)),
        (Op2::Shr, MIN, 9, Ok(-64)),
        (Op2::Shr, -8, 9, Ok(-4)),
        (Op2::Shr, MAX, -1, Ok(0)),
        (Op2::Shr, -1, 1, Ok(-1)),
        (Op2::Lt, MIN, MAX, Ok(1)),
        (Op2::Lt, MAX, MIN, Ok(0)),
        (Op2::Le, MIN, MIN, Ok(1)),
        (Op2::Gt, -1, MIN, Ok(1)),
        (Op2::Ge, MIN, -1, Ok(0)),
        (Op2::Eq, MIN, MIN, Ok(1)),
        (Op2::Eq, MIN, 0, Ok(0)),
        (Op2::Ne, MIN, 0, Ok(1)),
        (Op2::And, -1, MIN, Ok(MIN)),
        (Op2::Xor, -1, MIN, Ok(MAX)),
        (Op2::Or, MIN, MAX, Ok(-1)),
        (Op2::AndAnd, MIN, MIN, Ok(1)),
        (Op2::AndAnd, MIN, 0, Ok(0)),
        (Op2::OrOr, 0, MIN, Ok(1)),
        (Op2::OrOr, 0, 0, Ok(0)),
    ];
    compare_two(&rt, Width::W8, &CASES);
}

#[test]
fn one_operand_of_eight_bits(rt: HostRuntime) {
    const MIN: i64 = i8::MIN as i64;
    const MAX: i64 = i8::MAX as i64;
    const CASES: [One; 15] = [
        (Op1::Neg, 0, 0),
        (Op1::Neg, 1, -1),
        (Op1::Neg, -1, 1),
        (Op1::Neg, MIN, MIN),
        (Op1::Neg, MAX, -127),
        (Op1::Flip, 0, -1),
        (Op1::Flip, 1, -2),
        (Op1::Flip, -1, 0),
        (Op1::Flip, MIN, MAX),
        (Op1::Flip, MAX, MIN),
        (Op1::Not, 0, 1),
        (Op1::Not, 1, 0),
        (Op1::Not, -1, 0),
        (Op1::Not, MIN, 0),
        (Op1::Not, MAX, 0),
    ];
    compare_one(&rt, Width::W8, &CASES);
}

#[test]
fn two_operands_of_sixteen_bits(rt: HostRuntime) {
    const MIN: i64 = i16::MIN as i64;
    const MAX: i64 = i16::MAX as i64;
    const CASES: [Two; 45] = [
        (Op2::Mul, MIN, -1, Ok(MIN)),
        (Op2::Mul, MAX, MAX, Ok(1)),
        (Op2::Mul, 256, 256, Ok(0)),
        (Op2::Mul, 256, 128, Ok(MIN)),
        (Op2::Div, MIN, -1, Ok(MIN)),
        (Op2::Div, MIN, MAX, Ok(-1)),
        (Op2::Div, -7, 2, Ok(-3)),
        (Op2::Div, 7, -2, Ok(-3)),
        (Op2::Div, MIN, 0, Err(Trap::Divide)),
        (Op2::Rem, MIN, -1, Ok(0)),
        (Op2::Rem, -7, 2, Ok(-1)),
        (Op2::Rem, 7, -2, Ok(1)),
        (Op2::Rem, MAX, MIN, Ok(MAX)),
        (Op2::Rem, 0, 0, Err(Trap::Divide)),
        (Op2::Add, MAX, 1, Ok(MIN)),
        (Op2::Add, MIN, MIN, Ok(0)),
        (Op2::Sub, MIN, 1, Ok(MAX)),
        (Op2::Sub, 0, MIN, Ok(MIN)),
        (Op2::Shl, 1, 15, Ok(MIN)),
        (Op2::Shl, 1, 16, Ok(1)),
        (Op2::Shl, 1, 17, Ok(2)),
        (Op2::Shl, 1, -1, Ok(MIN)),
        (Op2::Shl, 1, MIN, Ok(1)),
        (Op2::Shl, MAX, 1, Ok(-2)),
        (Op2::Shr, MIN, 15, Ok(-1)),
        (Op2::Shr, MIN, 16, Ok(MIN)),
        (Op2::Shr, MIN, 17, Ok(-16_384)),
        (Op2::Shr, -8, 17, Ok(-4)),
        (Op2::Shr, MAX, -1, Ok(0)),
        (Op2::Shr, -1, 1, Ok(-1)),
        (Op2::Lt, MIN, MAX, Ok(1)),
        (Op2::Lt, MAX, MIN, Ok(0)),
        (Op2::Le, MIN, MIN, Ok(1)),
        (Op2::Gt, -1, MIN, Ok(1)),
        (Op2::Ge, MIN, -1, Ok(0)),
        (Op2::Eq, MIN, MIN, Ok(1)),
        (Op2::Eq, MIN, 0, Ok(0)),
        (Op2::Ne, MIN, 0, Ok(1)),
        (Op2::And, -1, MIN, Ok(MIN)),
        (Op2::Xor, -1, MIN, Ok(MAX)),
        (Op2::Or, MIN, MAX, Ok(-1)),
        (Op2::AndAnd, MIN, MIN, Ok(1)),
        (Op2::AndAnd, MIN, 0, Ok(0)),
        (Op2::OrOr, 0, MIN, Ok(1)),
        (Op2::OrOr, 0, 0, Ok(0)),
    ];
    compare_two(&rt, Width::W16, &CASES);
}

#[test]
fn one_operand_of_sixteen_bits(rt: HostRuntime) {
    const MIN: i64 = i16::MIN as i64;
    const MAX: i64 = i16::MAX as i64;
    const CASES: [One; 15] = [
        (Op1::Neg, 0, 0),
        (Op1::Neg, 1, -1),
        (Op1::Neg, -1, 1),
        (Op1::Neg, MIN, MIN),
        (Op1::Neg, MAX, -32_767),
        (Op1::Flip, 0, -1),
        (Op1::Flip, 1, -2),
        (Op1::Flip, -1, 0),
        (Op1::Flip, MIN, MAX),
        (Op1::Flip, MAX, MIN),
        (Op1::Not, 0, 1),
        (Op1::Not, 1, 0),
        (Op1::Not, -1, 0),
        (Op1::Not, MIN, 0),
        (Op1::Not, MAX, 0),
    ];
    compare_one(&rt, Width::W16, &CASES);
}

#[test]
fn two_operands_of_sixty_four_bits(rt: HostRuntime) {
    const MIN: i64 = i64::MIN;
    const MAX: i64 = i64::MAX;
    const CASES: [Two; 45] = [
        (Op2::Mul, MIN, -1, Ok(MIN)),
        (Op2::Mul, MAX, MAX, Ok(1)),
        (Op2::Mul, 4_294_967_296, 4_294_967_296, Ok(0)),
        (Op2::Mul, 4_294_967_296, 2_147_483_648, Ok(MIN)),
        (Op2::Div, MIN, -1, Ok(MIN)),
        (Op2::Div, MIN, MAX, Ok(-1)),
        (Op2::Div, -7, 2, Ok(-3)),
        (Op2::Div, 7, -2, Ok(-3)),
        (Op2::Div, MIN, 0, Err(Trap::Divide)),
        (Op2::Rem, MIN, -1, Ok(0)),
        (Op2::Rem, -7, 2, Ok(-1)),
        (Op2::Rem, 7, -2, Ok(1)),
        (Op2::Rem, MAX, MIN, Ok(MAX)),
        (Op2::Rem, 0, 0, Err(Trap::Divide)),
        (Op2::Add, MAX, 1, Ok(MIN)),
        (Op2::Add, MIN, MIN, Ok(0)),
        (Op2::Sub, MIN, 1, Ok(MAX)),
        (Op2::Sub, 0, MIN, Ok(MIN)),
        (Op2::Shl, 1, 63, Ok(MIN)),
        (Op2::Shl, 1, 64, Ok(1)),
        (Op2::Shl, 1, 65, Ok(2)),
        (Op2::Shl, 1, -1, Ok(MIN)),
        (Op2::Shl, 1, MIN, Ok(1)),
        (Op2::Shl, MAX, 1, Ok(-2)),
        (Op2::Shr, MIN, 63, Ok(-1)),
        (Op2::Shr, MIN, 64, Ok(MIN)),
        (Op2::Shr, MIN, 65, Ok(-4_611_686_018_427_387_904)),
        (Op2::Shr, -8, 65, Ok(-4)),
        (Op2::Shr, MAX, -1, Ok(0)),
        (Op2::Shr, -1, 1, Ok(-1)),
        (Op2::Lt, MIN, MAX, Ok(1)),
        (Op2::Lt, MAX, MIN, Ok(0)),
        (Op2::Le, MIN, MIN, Ok(1)),
        (Op2::Gt, -1, MIN, Ok(1)),
        (Op2::Ge, MIN, -1, Ok(0)),
        (Op2::Eq, MIN, MIN, Ok(1)),
        (Op2::Eq, MIN, 0, Ok(0)),
        (Op2::Ne, MIN, 0, Ok(1)),
        (Op2::And, -1, MIN, Ok(MIN)),
        (Op2::Xor, -1, MIN, Ok(MAX)),
        (Op2::Or, MIN, MAX, Ok(-1)),
        (Op2::AndAnd, MIN, MIN, Ok(1)),
        (Op2::AndAnd, MIN, 0, Ok(0)),
        (Op2::OrOr, 0, MIN, Ok(1)),
        (Op2::OrOr, 0, 0, Ok(0)),
    ];
    compare_two(&rt, Width::W64, &CASES);
}

#[test]
fn one_operand_of_sixty_four_bits(rt: HostRuntime) {
    const MIN: i64 = i64::MIN;
    const MAX: i64 = i64::MAX;
    const CASES: [One; 15] = [
        (Op1::Neg, 0, 0),
        (Op1::Neg, 1, -1),
        (Op1::Neg, -1, 1),
        (Op1::Neg, MIN, MIN),
        (Op1::Neg, MAX, -9_223_372_036_854_775_807),
        (Op1::Flip, 0, -1),
        (Op1::Flip, 1, -2),
        (Op1::Flip, -1, 0),
        (Op1::Flip, MIN, MAX),
        (Op1::Flip, MAX, MIN),
        (Op1::Not, 0, 1),
        (Op1::Not, 1, 0),
        (Op1::Not, -1, 0),
        (Op1::Not, MIN, 0),
        (Op1::Not, MAX, 0),
    ];
    compare_one(&rt, Width::W64, &CASES);
}

#[test]
fn a_width_may_be_a_parameter(rt: HostRuntime) {
    assert_eq!(rt; apply2::<8>(Op2::Add, 127, 1), Ok(-128));
    assert_eq!(rt; apply2::<8>(Op2::Add, 100, 100), Ok(-56));
    assert_eq!(rt; apply2::<8>(Op2::Shr, -8, 9), Ok(-4));
    assert_eq!(rt; apply2::<8>(Op2::Rem, -128, -1), Ok(0));
    assert_eq!(rt; apply2::<16>(Op2::Shl, 1, 17), Ok(2));
    assert_eq!(rt; apply2::<32>(Op2::Rem, 7, 0), Err(Trap::Divide));
    assert_eq!(rt; apply2::<64>(Op2::Div, i64::MIN, -1), Ok(i64::MIN));
    assert_eq!(rt; apply1::<8>(Op1::Neg, -128), -128);
    assert_eq!(rt; apply1::<16>(Op1::Flip, 0), -1);
    assert_eq!(rt; apply1::<32>(Op1::Not, 7), 0);
    assert_eq!(rt; apply1::<64>(Op1::Neg, i64::MIN), i64::MIN);
}

#[test]
fn numbers_are_narrowed(rt: HostRuntime) {
    const MIN: i64 = i64::MIN;
    const MAX: i64 = i64::MAX;
    let cases = [
        (0, 0, 0, 0),
        (-1, -1, -1, -1),
        (127, 127, 127, 127),
        (128, -128, 128, 128),
        (200, -56, 200, 200),
        (255, -1, 255, 255),
        (256, 0, 256, 256),
        (-129, 127, -129, -129),
        (32_767, -1, 32_767, 32_767),
        (32_768, 0, -32_768, 32_768),
        (-32_769, -1, 32_767, -32_769),
        (65_535, -1, -1, 65_535),
        (2_147_483_647, -1, -1, 2_147_483_647),
        (2_147_483_648, 0, 0, -2_147_483_648),
        (-2_147_483_649, -1, -1, 2_147_483_647),
        (4_294_967_296, 0, 0, 0),
        (4_294_967_297, 1, 1, 1),
        (MAX, -1, -1, -1),
        (MIN, 0, 0, 0),
    ];
    for (a, eight, sixteen, thirty_two) in cases {
        assert_eq!(rt; narrow::<8>(a), eight, "{a} in 8 bits");
        assert_eq!(rt; narrow::<16>(a), sixteen, "{a} in 16 bits");
        assert_eq!(rt; narrow::<32>(a), thirty_two, "{a} in 32 bits");
        assert_eq!(rt; narrow::<64>(a), a, "{a} in 64 bits");
    }
}

#[test]
fn both_operands_are_taken_at_the_width(rt: HostRuntime) {
    let cases = [
        (Width::W8, Op2::Add, 300, 1, Ok(45)),
        (Width::W8, Op2::Add, 127, 1, Ok(-128)),
        (Width::W8, Op2::Lt, 128, 127, Ok(1)),
        (Width::W8, Op2::Div, 1, 256, Err(Trap::Divide)),
        (Width::W16, Op2::Add, 32_767, 1, Ok(-32_768)),
        (Width::W16, Op2::Shl, 1, 17, Ok(2)),
        (Width::W32, Op2::Add, (1 << 32) + 5, 1, Ok(6)),
        (Width::W32, Op2::Lt, 1 << 32, 1, Ok(1)),
        (Width::W32, Op2::Rem, 7, 1 << 32, Err(Trap::Divide)),
        (Width::W64, Op2::Add, i64::MAX, 1, Ok(i64::MIN)),
        (Width::W64, Op2::Div, i64::MIN, -1, Ok(i64::MIN)),
        (Width::W64, Op2::Shl, 1, 64, Ok(1)),
    ];
    for (width, op, a, b, want) in cases {
        assert_eq!(rt;
            operate2(width, op, a, b),
            want,
            "{op:?} of {a} and {b} at {width:?}"
        );
    }
}

#[test]
fn one_operand_is_taken_at_the_width(rt: HostRuntime) {
    let cases = [
        (Width::W8, Op1::Neg, 128, -128),
        (Width::W8, Op1::Neg, 127, -127),
        (Width::W8, Op1::Not, 256, 0),
        (Width::W16, Op1::Flip, 65_536, -1),
        (Width::W32, Op1::Neg, 1 << 31, -(1 << 31)),
        (Width::W32, Op1::Not, 1 << 32, 0),
        (Width::W64, Op1::Neg, i64::MIN, i64::MIN),
        (Width::W64, Op1::Flip, 0, -1),
        (Width::W64, Op1::Not, 0, 1),
    ];
    for (width, op, a, want) in cases {
        assert_eq!(rt; operate1(width, op, a), want, "{op:?} of {a} at {width:?}");
    }
}

#[test]
fn a_number_is_narrowed_to_a_width(rt: HostRuntime) {
    let cases = [
        (Width::W8, 200, -56),
        (Width::W8, -129, 127),
        (Width::W16, 40_000, -25_536),
        (Width::W32, 1 << 31, -(1 << 31)),
        (Width::W64, i64::MAX, i64::MAX),
    ];
    for (width, a, want) in cases {
        assert_eq!(rt; narrowed(width, a), want, "{a} at {width:?}");
    }
}

#[test]
fn the_wider_of_two_widths(rt: HostRuntime) {
    for (a, b, narrower, wider) in [
        (Width::W8, Width::W16, true, Width::W16),
        (Width::W64, Width::W32, false, Width::W64),
        (Width::W32, Width::W32, false, Width::W32),
    ] {
        assert_eq!(rt; a.is_narrower(b), narrower, "{a:?} and {b:?}");
        assert_eq!(rt; a.wider(b), wider, "{a:?} and {b:?}");
    }
}

#[test]
fn what_an_operator_gives_has_a_type(rt: HostRuntime) {
    for (op, want) in [
        (Op2::Shr, Width::W8),
        (Op2::Or, Width::W8),
        (Op2::Ge, Width::W32),
        (Op2::AndAnd, Width::W32),
    ] {
        assert_eq!(rt; Width::W8.after_two(op), want, "{op:?}");
    }
    assert_eq!(rt; Width::W64.after_one(Op1::Not), Width::W32, "!");
    assert_eq!(rt; Width::W64.after_one(Op1::Flip), Width::W64, "~");
}
