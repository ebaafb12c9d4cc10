//! The depths of expressions, as far as they can be counted.

ghost use Rattle.std.specs.Prelude.{◌≡◌, map, slice_index_or};
ghost use Rattle.psy_meaning.specs.Depths.{binary_depth, deeper, stacked, expr_depth, shallow, one_deep};
ghost use Rattle.psy_flow.specs.Counted.{held, capped_depth};

use crate::depths::{Depths, ONE_DEEP, SHALLOW};
use psy_arith::Op2;
use psy_tree::Expr;

// The entry of a function.
fn depth_of_callee(functions: &[Depths], function: u32) -> Depths
    ensures { held result ≡ slice_index_or (map held functions.now) function shallow }
{
    match functions.get(function as usize) {
        Some(depths) => *depths,
        None => SHALLOW,
    }
}

// The arguments are gone when the callee begins, and its value takes their place.
fn depth_of_call(arguments: Depths, callee: Depths) -> Depths
    ensures { held result ≡ capped_depth (deeper one_deep (deeper (held arguments) (held callee))) }
{
    ONE_DEEP.or(arguments.or(callee))
}

// The right side of `&&` and `||` finds nothing of the left one.
fn depth_of_binary(operator: Op2, left: Depths, right: Depths) -> Depths
    ensures { held result ≡ capped_depth (binary_depth operator (held left) (held right)) }
{
    match operator {
        Op2::AndAnd | Op2::OrOr => left.or(right),
        _ => left.or(right.on_top_of(1)),
    }
}

/// The depth of an expression, where `functions` has the depths of the functions that it may call.
#[cycle(expr)]
pub fn depth_of_expr(functions: &[Depths], expr: &Expr) -> Depths
    ensures { held result ≡ capped_depth (expr_depth (map held functions.now) expr.now) }
{
    match expr {
        Expr::Cell(_, index) => depth_of_expr(functions, index.get()),
        Expr::Unary(_, _, operand) | Expr::Cast(_, operand) => {
            depth_of_expr(functions, operand.get())
        }
        Expr::Binary(operator, _, left, right) => {
            let left = depth_of_expr(functions, left.get());
            let right = depth_of_expr(functions, right.get());
            depth_of_binary(*operator, left, right)
        }
        Expr::Call(function, arguments) => {
            let arguments = depth_of_arguments(functions, arguments.as_slice());
            let callee = depth_of_callee(functions, *function);
            depth_of_call(arguments, callee)
        }
        _ => ONE_DEEP,
    }
}

// Each argument is on top of the values of those before it.
#[cycle(expr)]
fn depth_of_arguments(functions: &[Depths], arguments: &[Expr]) -> Depths
    ensures { held result ≡ capped_depth (stacked 0 (map (expr_depth (map held functions.now)) arguments.now)) }
{
    let mut depths = SHALLOW;
    let mut before: u64 = 0;
    for argument in arguments {
        let here = depth_of_expr(functions, argument);
        depths = depths.or(here.on_top_of(before));
        before += 1;
    }
    depths
}
