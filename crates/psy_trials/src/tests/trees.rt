//! Trees of small texts, and the token at fault. Tokens are counted by hand, from 0.

use psy_arith::{Op2, Width};
use psy_base::limits::FILE_BYTES;
use psy_parse::{ParseFault, parse};
use psy_token::lex;
use psy_tree::{Item, Lit, Local, Raw, RawExpr, RawStmt};
use std::alloc::AllocGlobal;
use std::process::Abort;
use std::test::Fail;

/// The answer of `parse` for the tokens of a text.
fn parsed(rt: &(impl Abort + AllocGlobal), text: &str) -> Result<Result<Raw, ParseFault>, Fail> {
    let bytes = text.as_bytes();
    assert!(rt; bytes.len() <= FILE_BYTES, "the text is too long");
    let tokens = lex(rt.alloc(), bytes)?;
    Ok(parse(rt.alloc(), tokens.as_slice()))
}

/// The number that an expression is, and its token.
fn number(expr: &RawExpr) -> Option<(u32, u32)> {
    match expr {
        RawExpr::Number(Lit { value, token }) => Some((*value, *token)),
        _ => None,
    }
}

#[test]
fn a_difference_groups_to_the_left(rt: HostRuntime) -> Result<(), Fail> {
    let raw = parsed(&rt, "tick 1; int f() { return 7 - 2 - 3; }")??;
    let Some(Item::Function { name, stmts, .. }) = raw.items.get(0) else {
        return Err("no function")?;
    };
    assert_eq!(rt; name.token, 4);
    let Some(RawStmt::Return { token, value }) = stmts.get(0) else {
        return Err("no return")?;
    };
    assert_eq!(rt; *token, 8);
    let RawExpr::Binary(Op2::Sub, left, right) = value else {
        return Err("no difference")?;
    };
    assert_eq!(rt; number(right.get()), Some((3, 13)));
    let RawExpr::Binary(Op2::Sub, left, right) = left.get() else {
        return Err("no difference on the left side")?;
    };
    assert_eq!(rt; number(left.get()), Some((7, 9)));
    assert_eq!(rt; number(right.get()), Some((2, 11)));
    Ok(())
}

#[test]
fn types_stand_before_locals_and_round_brackets(rt: HostRuntime) -> Result<(), Fail> {
    let raw = parsed(&rt, "tick 1; int f() { int16 k = 3; return int8(k) + 1; }")??;
    let Some(Item::Function { locals, stmts, .. }) = raw.items.get(0) else {
        return Err("no function")?;
    };
    let Some(Local::Scalar(width, name, _)) = locals.get(0) else {
        return Err("no local")?;
    };
    assert_eq!(rt; (*width, name.token), (Width::W16, 9));
    let Some(RawStmt::Return { value, .. }) = stmts.get(0) else {
        return Err("no return")?;
    };
    let RawExpr::Binary(Op2::Add, left, right) = value else {
        return Err("no sum")?;
    };
    assert_eq!(rt; number(right.get()), Some((1, 19)));
    let RawExpr::Cast(width, operand) = left.get() else {
        return Err("no cast on the left side")?;
    };
    assert_eq!(rt; *width, Width::W8);
    let RawExpr::Var(name) = operand.get() else {
        return Err("no name in the cast")?;
    };
    assert_eq!(rt; name.token, 16);
    Ok(())
}

#[test]
fn a_text_that_is_no_program_has_a_token_at_fault(rt: HostRuntime) -> Result<(), Fail> {
    let answer = parsed(&rt, "tick 1; clock c = * tick;")?;
    assert!(rt; matches!(answer, Err(ParseFault::Syntax(6))));
    Ok(())
}
