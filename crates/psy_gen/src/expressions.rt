//! The code of expressions.

ghost use Rattle.std.specs.Prelude.{◌≡◌, ◌+◌, ◌<◌, ◌^◌, [], ◌++◌, map, length, OnOk};
ghost use Rattle.psy_arith.specs.declared.operators.Op2.TheVariants.{AndAnd, OrOr};
ghost use Rattle.psy_code.specs.declared.instr.Instr.TheVariants.{AndTest, OrTest};
ghost use Rattle.psy_tree.specs.Paths.{total};
ghost use Rattle.psy_meaning.specs.Sizes.{expr_size};
ghost use Rattle.psy_gen.specs.Emission.{expr_code, exprs_code, width_of_unary};

use crate::instrs::Instrs;
use crate::layout::Layout;
use psy_arith::{Op1, Op2, Width};
use psy_base::Memory;
use psy_code::{Binary, Instr};
use psy_tree::Expr;

/// The test with a jump that `&&` or `||` is.
fn lazy_test(op: Op2, to: u32) -> Instr
    ensures and { op ≡ AndAnd → result ≡ AndTest to }
    ensures or { op ≡ OrOr → result ≡ OrTest to }
{
    match op {
        Op2::AndAnd => Instr::AndTest(to),
        _ => Instr::OrTest(to),
    }
}

/// The width at which code has an operator on one operand.
fn width_of(op: Op1, width: Width) -> Width
    ensures { result ≡ width_of_unary op width }
{
    match op {
        Op1::Not => Width::W64,
        _ => width,
    }
}

#[cycle(emit_expr)]
pub fn emit_expr(code: &mut Instrs, layout: &Layout, expr: &Expr) -> Result<(), Memory>
    requires { length code.old + expr_size expr.now < 2 ^ 32 }
    ensures { OnOk result (code.new ≡ code.old ++ expr_code layout.now expr.now (length code.old)) }
{
    match expr {
        Expr::Number(number) => code.push(Instr::Push(*number)),
        Expr::Slot(slot) => code.push(Instr::Load(layout.base(*slot))),
        Expr::Copy(variable) => code.push(Instr::LoadCopy(*variable)),
        Expr::Cell(slot, index) => {
            emit_expr(code, layout, index.get())?;
            code.push(Instr::LoadCell {
                base: layout.base(*slot),
                cells: layout.cells(*slot),
            })
        }
        Expr::Past(variable, back) => code.push(Instr::Past {
            variable: *variable,
            back: *back,
        }),
        Expr::Ready(stream) => code.push(Instr::Ready(*stream)),
        Expr::Take(stream) => code.push(Instr::Take(*stream)),
        Expr::Unary(op, width, operand) => {
            emit_expr(code, layout, operand.get())?;
            code.push(Instr::Unary(*op, width_of(*op, *width)))
        }
        Expr::Binary(op, width, left, right) => {
            emit_expr(code, layout, left.get())?;
            match Binary::new(*op) {
                Some(operator) => {
                    emit_expr(code, layout, right.get())?;
                    code.push(Instr::Binary(operator, *width))
                }
                None => {
                    let test = code.hold()?;
                    emit_expr(code, layout, right.get())?;
                    code.push(Instr::Truth)?;
                    code.set(test, lazy_test(*op, code.place()));
                    Ok(())
                }
            }
        }
        Expr::Call(function, arguments) => {
            emit_exprs(code, layout, arguments.as_slice())?;
            code.push(Instr::Call(*function))
        }
        Expr::Cast(width, operand) => {
            emit_expr(code, layout, operand.get())?;
            code.push(Instr::Cast(*width))
        }
    }
}

/// From left to right.
#[cycle(emit_expr)]
fn emit_exprs(code: &mut Instrs, layout: &Layout, exprs: &[Expr]) -> Result<(), Memory>
    requires { length code.old + total (map expr_size exprs.now) < 2 ^ 32 }
    ensures { OnOk result (code.new ≡ code.old ++ exprs_code layout.now exprs.now (length code.old)) }
{
    for expr in exprs {
        emit_expr(code, layout, expr)?;
    }
    Ok(())
}
