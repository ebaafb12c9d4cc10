//! The variables at which a text looks, and the streams to which it sends, as marks by number.

ghost use Rattle.std.specs.Prelude.{◌≡◌, false, map, replicate, IfOk};
ghost use Rattle.psy_flow.specs.Texts.{expr_looks, joined, looks_in, marked_at, stmt_looks, stmt_streams, streams_in};

use crate::next::no_marks;
use crate::reach::mark;
use psy_base::{Items, Memory};
use psy_tree::{Expr, Stmt};
use std::alloc::Global;

// ---- looks

#[cycle(expr)]
fn mark_looks_of(looked: &mut Items<bool>, expr: &Expr)
    ensures { looked.new ≡ marked_at looked.old (expr_looks expr.now) }
{
    match expr {
        Expr::Past(variable, _) => mark(looked, *variable),
        Expr::Cell(_, index) => mark_looks_of(looked, index.get()),
        Expr::Unary(_, _, operand) | Expr::Cast(_, operand) => mark_looks_of(looked, operand.get()),
        Expr::Binary(_, _, left, right) => {
            mark_looks_of(looked, left.get());
            mark_looks_of(looked, right.get());
        }
        Expr::Call(_, arguments) => mark_looks_of_all(looked, arguments.as_slice()),
        _ => {}
    }
}

#[cycle(expr)]
fn mark_looks_of_all(looked: &mut Items<bool>, exprs: &[Expr])
    ensures { looked.new ≡ marked_at looked.old (joined (map expr_looks exprs.now)) }
{
    for expr in exprs {
        mark_looks_of(looked, expr);
    }
}

#[cycle(looks)]
fn mark_looks_in(looked: &mut Items<bool>, stmt: &Stmt)
    ensures { looked.new ≡ marked_at looked.old (stmt_looks stmt.now) }
{
    match stmt {
        Stmt::Set(_, value) => mark_looks_of(looked, value),
        Stmt::SetCopy(_, value) => mark_looks_of(looked, value),
        Stmt::Return(value) => mark_looks_of(looked, value),
        Stmt::Send { value, .. } => mark_looks_of(looked, value),
        Stmt::SetCell(_, index, value) => {
            mark_looks_of(looked, index);
            mark_looks_of(looked, value);
        }
        Stmt::If(test, branch, other) => {
            mark_looks_of(looked, test);
            mark_looks(looked, branch.as_slice());
            match other {
                None => {}
                Some(other) => mark_looks(looked, other.as_slice()),
            }
        }
        Stmt::Bounded(test, _, body) => {
            mark_looks_of(looked, test);
            mark_looks(looked, body.as_slice());
        }
        Stmt::Timed(test, body) => {
            mark_looks_of(looked, test);
            mark_looks(looked, body.as_slice());
        }
        Stmt::Advance(_) => {}
    }
}

#[cycle(looks)]
fn mark_looks(looked: &mut Items<bool>, stmts: &[Stmt])
    ensures { looked.new ≡ marked_at looked.old (looks_in stmts.now) }
{
    for stmt in stmts {
        mark_looks_in(looked, stmt);
    }
}

/// The variables at which statements look, of the first so many. The only error is want of memory.
pub fn looked_at(alloc: Global, stmts: &[Stmt], variables: usize) -> Result<Items<bool>, Memory>
    ensures { IfOk result (λ looked. looked ≡ marked_at (replicate variables false) (looks_in stmts.now)) }
{
    let mut looked = no_marks(alloc, variables)?;
    mark_looks(&mut looked, stmts);
    Ok(looked)
}

// ---- sends

#[cycle(sends)]
fn mark_sends_in(sent: &mut Items<bool>, stmt: &Stmt)
    ensures { sent.new ≡ marked_at sent.old (stmt_streams stmt.now) }
{
    match stmt {
        Stmt::Send { stream, .. } => mark(sent, *stream),
        Stmt::If(_, branch, other) => {
            mark_sends(sent, branch.as_slice());
            match other {
                None => {}
                Some(other) => mark_sends(sent, other.as_slice()),
            }
        }
        Stmt::Bounded(_, _, body) => mark_sends(sent, body.as_slice()),
        Stmt::Timed(_, body) => mark_sends(sent, body.as_slice()),
        _ => {}
    }
}

#[cycle(sends)]
fn mark_sends(sent: &mut Items<bool>, stmts: &[Stmt])
    ensures { sent.new ≡ marked_at sent.old (streams_in stmts.now) }
{
    for stmt in stmts {
        mark_sends_in(sent, stmt);
    }
}

/// The streams to which statements send, of the first so many. The only error is want of memory.
pub fn sent_to(alloc: Global, stmts: &[Stmt], streams: usize) -> Result<Items<bool>, Memory>
    ensures { IfOk result (λ sent. sent ≡ marked_at (replicate streams false) (streams_in stmts.now)) }
{
    let mut sent = no_marks(alloc, streams)?;
    mark_sends(&mut sent, stmts);
    Ok(sent)
}
