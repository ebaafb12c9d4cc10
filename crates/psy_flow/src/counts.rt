//! The greatest counts of expressions and statements.

ghost use Rattle.std.specs.Prelude.{◌≡◌, min, map, if◌then◌else◌};
ghost use Rattle.psy_tree.specs.Paths.{total};
ghost use Rattle.psy_flow.specs.Tops.{limit_of, called, capped_tops, expr_most, binary_most, turning as turns, reaching, nowhere, meets, stmt_tops};
ghost use Rattle.psy_flow.specs.Tops.{stmts_tops, tops_through};
ghost use Rattle.psy_flow.specs.Tops as tops;

use crate::gauge::Gauge;
use crate::tops::{NO_WAY, Tops};
use psy_arith::Op2;
use psy_tree::{Expr, Stmt};

fn most_of_callee(row: &[u64], function: u32) -> u64
    ensures { result ≡ called row.now function }
{
    match row.get(function as usize) {
        Some(most) => *most,
        None => 0,
    }
}

/// The greatest count of an expression.
#[cycle(expr)]
pub fn most_of_expr(gauge: Gauge, row: &[u64], expr: &Expr) -> u64
    ensures { result ≡ min (expr_most gauge (called row.now) expr.now) (limit_of gauge) }
{
    let step = gauge.step();
    match expr {
        Expr::Cell(_, index) => {
            let index = most_of_expr(gauge, row, index.get());
            gauge.sum(index, step)
        }
        Expr::Past(variable, _) => gauge.look(*variable),
        Expr::Unary(_, _, operand) | Expr::Cast(_, operand) => {
            let operand = most_of_expr(gauge, row, operand.get());
            gauge.sum(operand, step)
        }
        Expr::Binary(operator, _, left, right) => {
            let left = most_of_expr(gauge, row, left.get());
            let right = most_of_expr(gauge, row, right.get());
            most_of_binary(gauge, *operator, left, right)
        }
        Expr::Call(function, arguments) => {
            let arguments = most_of_exprs(gauge, row, arguments.as_slice());
            let callee = gauge.sum(step, most_of_callee(row, *function));
            gauge.sum(arguments, callee)
        }
        _ => step,
    }
}

// The right side of `&&` and `||` counts most where it is evaluated.
fn most_of_binary(gauge: Gauge, operator: Op2, left: u64, right: u64) -> u64
    ensures { result ≡ min (binary_most gauge operator left right) (limit_of gauge) }
{
    let step = gauge.step();
    let behind = gauge.sum(right, step);
    match operator {
        Op2::AndAnd | Op2::OrOr => gauge.sum(left, gauge.sum(step, behind)),
        _ => gauge.sum(left, behind),
    }
}

#[cycle(expr)]
fn most_of_exprs(gauge: Gauge, row: &[u64], exprs: &[Expr]) -> u64
    ensures { result ≡ min (total (map (expr_most gauge (called row.now)) exprs.now)) (limit_of gauge) }
{
    let mut count = 0;
    for expr in exprs {
        count = gauge.sum(count, most_of_expr(gauge, row, expr));
    }
    count
}

// At most so many turns of a bounded loop: falling through counts most after all of them, and leaving it in
// the last.
fn turning(gauge: Gauge, most: u32, test: u64, body: Tops) -> Tops
    requires { body ≡ capped_tops gauge body }
    ensures { result ≡ capped_tops gauge (turns gauge most test body) }
{
    let step = gauge.step();
    let tested = gauge.sum(test, gauge.sum(step, step));
    let out = Tops::falling(tested);
    if most == 0 {
        return out;
    }
    match body.fell {
        None => out.or_else(body.behind(gauge, tested)),
        Some(fell) => {
            let turn = gauge.sum(tested, gauge.sum(fell, step));
            let last = Tops { fell: None, ..body };
            let before = gauge.times(most - 1, turn);
            let whole = gauge.sum(gauge.times(most, turn), tested);
            let leaving = last.behind(gauge, gauge.sum(before, tested));
            Tops::falling(whole).or_else(leaving)
        }
    }
}

#[cycle(stmt)]
pub fn tops_of_stmt(gauge: Gauge, wanted: Option<u32>, row: &[u64], stmt: &Stmt) -> Tops
    ensures { result ≡ capped_tops gauge (stmt_tops gauge wanted (called row.now) stmt.now) }
{
    let step = gauge.step();
    match stmt {
        Stmt::Set(_, value) => Tops::falling(gauge.sum(most_of_expr(gauge, row, value), step)),
        Stmt::SetCopy(_, value) => Tops::falling(gauge.sum(most_of_expr(gauge, row, value), step)),
        Stmt::SetCell(_, index, value) => {
            let index = most_of_expr(gauge, row, index);
            let value = gauge.sum(most_of_expr(gauge, row, value), step);
            Tops::falling(gauge.sum(index, value))
        }
        Stmt::If(test, branch, other) => {
            let test = gauge.sum(most_of_expr(gauge, row, test), step);
            let branch = tops_of_stmts(gauge, wanted, row, branch.as_slice());
            match other {
                None => branch.or_else(Tops::falling(0)).behind(gauge, test),
                Some(other) => {
                    let other = tops_of_stmts(gauge, wanted, row, other.as_slice());
                    let branch = branch.and_on(gauge, Tops::falling(step));
                    branch.or_else(other).behind(gauge, test)
                }
            }
        }
        Stmt::Bounded(test, most, body) => {
            let test = most_of_expr(gauge, row, test);
            let body = tops_of_stmts(gauge, wanted, row, body.as_slice());
            turning(gauge, *most, test, body).behind(gauge, step)
        }
        Stmt::Timed(test, body) => {
            let test = gauge.sum(most_of_expr(gauge, row, test), step);
            let body = tops_of_stmts(gauge, wanted, row, body.as_slice());
            body.or_else(Tops::falling(0)).behind(gauge, test)
        }
        Stmt::Send { value, stream, .. } => {
            Tops::falling(gauge.sum(most_of_expr(gauge, row, value), gauge.send(*stream)))
        }
        Stmt::Advance(point) => tops_of_advance(gauge, wanted, *point),
        Stmt::Return(value) => { Tops::returning(gauge.sum(most_of_expr(gauge, row, value), step)) }
    }
}

fn tops_of_advance(gauge: Gauge, wanted: Option<u32>, point: u32) -> Tops
    ensures { result ≡ capped_tops gauge (if meets wanted point then reaching (tops.in_step gauge) else nowhere) }
{
    let meets = match wanted {
        None => true,
        Some(wanted) => point == wanted,
    };
    if meets {
        return Tops::reaching(gauge.step());
    }
    NO_WAY
}

/// The greatest counts of statements one after the other.
#[cycle(stmt)]
pub fn tops_of_stmts(gauge: Gauge, wanted: Option<u32>, row: &[u64], stmts: &[Stmt]) -> Tops
    ensures { result ≡ capped_tops gauge (stmts_tops gauge wanted (called row.now) stmts.now) }
{
    let mut tops = Tops::falling(0);
    for stmt in stmts {
        tops = tops.and_on(gauge, tops_of_stmt(gauge, wanted, row, stmt));
    }
    tops
}
