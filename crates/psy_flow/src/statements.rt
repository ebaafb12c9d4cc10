//! The depths of statements, as far as they can be counted.

ghost use Rattle.std.specs.Prelude.{◌≡◌, map};
ghost use Rattle.psy_meaning.specs.Depths.{stmt_depth, stmts_depth};
ghost use Rattle.psy_flow.specs.Counted.{held, capped_depth};

use crate::depths::{Depths, SHALLOW};
use crate::expressions::depth_of_expr;
use psy_tree::Stmt;

#[cycle(stmt)]
fn depth_of_stmt(functions: &[Depths], stmt: &Stmt) -> Depths
    ensures { held result ≡ capped_depth (stmt_depth (map held functions.now) stmt.now) }
{
    match stmt {
        Stmt::Set(_, value) => depth_of_expr(functions, value),
        Stmt::SetCopy(_, value) => depth_of_expr(functions, value),
        Stmt::SetCell(_, index, value) => {
            let index = depth_of_expr(functions, index);
            let value = depth_of_expr(functions, value);
            index.or(value.on_top_of(1))
        }
        Stmt::If(test, branch, other) => {
            let test = depth_of_expr(functions, test);
            let branch = depth_of_stmts(functions, branch.as_slice());
            match other {
                None => test.or(branch),
                Some(other) => {
                    let other = depth_of_stmts(functions, other.as_slice());
                    test.or(branch.or(other))
                }
            }
        }
        Stmt::Bounded(test, _, body) => {
            let test = depth_of_expr(functions, test);
            let body = depth_of_stmts(functions, body.as_slice());
            test.or(body)
        }
        Stmt::Timed(test, body) => {
            let test = depth_of_expr(functions, test);
            let body = depth_of_stmts(functions, body.as_slice());
            test.or(body)
        }
        Stmt::Send { value, .. } => depth_of_expr(functions, value),
        Stmt::Advance(_) => SHALLOW,
        Stmt::Return(value) => depth_of_expr(functions, value),
    }
}

/// The depth of statements, where `functions` has the depths of the functions that they may call.
#[cycle(stmt)]
pub fn depth_of_stmts(functions: &[Depths], stmts: &[Stmt]) -> Depths
    ensures { held result ≡ capped_depth (stmts_depth (map held functions.now) stmts.now) }
{
    let mut depths = SHALLOW;
    for stmt in stmts {
        depths = depths.or(depth_of_stmt(functions, stmt));
    }
    depths
}
