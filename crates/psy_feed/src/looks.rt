//! Whether a text looks at a variable by `past`, and how far back.
ghost use Rattle.std.specs.Prelude.{◌≡◌, map};
ghost use Rattle.psy_history.specs.Feeding.{all_pasts, pasts_in};
ghost use Rattle.psy_feed.specs.Arrows.{looks};
ghost use Rattle.psy_feed.specs.Backs.{backs_in, expr_backs, stmt_backs};

use psy_tree::{Expr, Stmt};

#[cycle(expr)]
fn expr_looks(expr: &Expr, variable: u32, least: u32) -> bool
    ensures { result ≡ looks variable (expr_backs least expr.now) }
{
    match expr {
        Expr::Past(own, back) => least <= *back && *own == variable,
        Expr::Cell(_, index) => expr_looks(index.get(), variable, least),
        Expr::Unary(_, _, operand) | Expr::Cast(_, operand) => {
            expr_looks(operand.get(), variable, least)
        }
        Expr::Binary(_, _, left, right) => {
            expr_looks(left.get(), variable, least) || expr_looks(right.get(), variable, least)
        }
        Expr::Call(_, arguments) => exprs_look(arguments.as_slice(), variable, least),
        _ => false,
    }
}

#[cycle(expr)]
fn exprs_look(exprs: &[Expr], variable: u32, least: u32) -> bool
    ensures { result ≡ looks variable (all_pasts (map (expr_backs least) exprs.now)) }
{
    for expr in exprs {
        if expr_looks(expr, variable, least) {
            return true;
        }
    }
    false
}

#[cycle(stmt)]
fn stmt_looks(stmt: &Stmt, variable: u32, least: u32) -> bool
    ensures { result ≡ looks variable (stmt_backs least stmt.now) }
{
    match stmt {
        Stmt::Set(_, value) | Stmt::SetCopy(_, value) | Stmt::Return(value) => {
            expr_looks(value, variable, least)
        }
        Stmt::SetCell(_, index, value) => {
            expr_looks(index, variable, least) || expr_looks(value, variable, least)
        }
        Stmt::If(test, branch, other) => {
            let first = expr_looks(test, variable, least)
                || stmts_look_back(branch.as_slice(), variable, least);
            match other {
                None => first,
                Some(other) => first || stmts_look_back(other.as_slice(), variable, least),
            }
        }
        Stmt::Bounded(test, _, body) => {
            expr_looks(test, variable, least) || stmts_look_back(body.as_slice(), variable, least)
        }
        Stmt::Timed(test, body) => {
            expr_looks(test, variable, least) || stmts_look_back(body.as_slice(), variable, least)
        }
        Stmt::Send { value, .. } => expr_looks(value, variable, least),
        Stmt::Advance(_) => false,
    }
}

/// Whether statements look back at a variable by at least so many of its dates.
#[cycle(stmt)]
pub fn stmts_look_back(stmts: &[Stmt], variable: u32, least: u32) -> bool
    ensures { result ≡ looks variable (backs_in least stmts.now) }
{
    for stmt in stmts {
        if stmt_looks(stmt, variable, least) {
            return true;
        }
    }
    false
}

/// Whether statements look at a variable.
pub fn stmts_look(stmts: &[Stmt], variable: u32) -> bool
    ensures { result ≡ looks variable (pasts_in stmts.now) }
{
    stmts_look_back(stmts, variable, 0)
}
