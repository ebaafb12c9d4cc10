//! The depths of the functions' calls, as far as they can be counted.

ghost use Rattle.std.specs.Prelude.{◌≡◌, ◌-◌, ◌^◌, ◌≤◌, min, map, take, length};
ghost use Rattle.psy_base.specs.declared.limits.TheConstants.{FUNCTIONS};
ghost use Rattle.psy_meaning.specs.Depths as depths;
ghost use Rattle.psy_meaning.specs.Depths.{call_depth};
ghost use Rattle.psy_flow.specs.Counted.{held, capped_depth, counted_calls};

use crate::depths::{Depths, SHALLOW};
use crate::statements::depth_of_stmts;
use psy_base::limits;
use psy_tree::{FunctionDecl, Stmt};

/// The depths of the functions, one entry each, and then entries of no meaning.
pub type Row = [Depths; limits::FUNCTIONS];

// How many bounded loops a statement is or holds.
#[cycle(loops)]
fn loops(stmt: &Stmt) -> u64
    ensures { result ≡ min (depths.loops stmt.now) (2 ^ 64 - 1) }
{
    match stmt {
        Stmt::If(_, branch, None) => loops_in(branch.as_slice()),
        Stmt::If(_, branch, Some(other)) => {
            loops_in(branch.as_slice()).saturating_add(loops_in(other.as_slice()))
        }
        Stmt::Bounded(_, _, body) => loops_in(body.as_slice()).saturating_add(1),
        Stmt::Timed(_, body) => loops_in(body.as_slice()),
        _ => 0,
    }
}

#[cycle(loops)]
fn loops_in(stmts: &[Stmt]) -> u64
    ensures { result ≡ min (depths.loops_in stmts.now) (2 ^ 64 - 1) }
{
    let mut count: u64 = 0;
    for stmt in stmts {
        count = count.saturating_add(loops(stmt));
    }
    count
}

// The depth of a call, where `above` has the depths of the functions above this one.
fn depth_of_function(above: &[Depths], function: &FunctionDecl) -> Depths
    ensures { held result ≡ capped_depth (call_depth (map held above.now) function.now) }
{
    let inside = depth_of_stmts(above, function.stmts.as_slice());
    let slots = (function.params as u64).saturating_add(function.locals.len() as u64);
    let frame = slots.saturating_add(loops_in(function.stmts.as_slice()));
    Depths {
        operands: inside.operands.max(1),
        cells: frame.saturating_add(inside.cells),
    }
}

/// Each function is measured once, in order: it calls only those above it.
pub fn depths_of_calls(functions: &[FunctionDecl]) -> Row
    requires { length functions.now ≤ FUNCTIONS }
    ensures { take (length functions.now) (map held result) ≡ counted_calls functions.now }
{
    let mut row = [SHALLOW; limits::FUNCTIONS];
    for at in 0..functions.len() {
        row[at] = depth_of_function(&row[..at], &functions[at]);
    }
    row
}
