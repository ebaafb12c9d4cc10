//! The code of statements.

ghost use Rattle.std.specs.Prelude.{◌≡◌, ◌+◌, ◌<◌, ◌^◌, ◌++◌, length, OnOk};
ghost use Rattle.psy_meaning.specs.Depths.{loops as loops_of, loops_in};
ghost use Rattle.psy_meaning.specs.Sizes.{stmt_size, stmts_size};
ghost use Rattle.psy_gen.specs.Emission.{stmt_code, stmts_code, places_of, stmts_places};

use crate::expressions::emit_expr;
use crate::instrs::Instrs;
use crate::layout::Layout;
use psy_base::{Items, Memory};
use psy_code::Instr;
use psy_tree::Stmt;

/// What is known of a body beside its code.
#[derive(Debug, Drop)]
pub struct Body {
    /// The places where an action begins.
    pub places: Items<u32>,
    /// The bounded loops so far, each of which has a counter.
    pub loops: u32,
}

#[cycle(emit_stmt)]
fn emit_stmt(code: &mut Instrs, body: &mut Body, layout: &Layout, stmt: &Stmt) -> Result<(), Memory>
    requires room { length code.old + stmt_size stmt.now < 2 ^ 32 }
    requires counters { body.old.loops + loops_of stmt.now < 2 ^ 32 }
    ensures code { OnOk result (code.new ≡ code.old ++ stmt_code layout.now stmt.now body.old.loops (length code.old)) }
    ensures places { OnOk result (body.new.places ≡ body.old.places ++ places_of stmt.now (length code.old)) }
    ensures loops { OnOk result (body.new.loops ≡ body.old.loops + loops_of stmt.now) }
{
    match stmt {
        Stmt::Set(slot, value) => {
            emit_expr(code, layout, value)?;
            code.push(Instr::Store(layout.base(*slot)))
        }
        Stmt::SetCopy(variable, value) => {
            emit_expr(code, layout, value)?;
            code.push(Instr::StoreCopy(*variable))
        }
        Stmt::SetCell(slot, index, value) => {
            emit_expr(code, layout, index)?;
            emit_expr(code, layout, value)?;
            code.push(Instr::StoreCell {
                base: layout.base(*slot),
                cells: layout.cells(*slot),
            })
        }
        Stmt::If(test, branch, other) => {
            emit_expr(code, layout, test)?;
            let over = code.hold()?;
            emit_stmts(code, body, layout, branch.as_slice())?;
            match other {
                None => {
                    code.set(over, Instr::JumpZero(code.place()));
                    Ok(())
                }
                Some(other) => {
                    let behind = code.hold()?;
                    code.set(over, Instr::JumpZero(code.place()));
                    emit_stmts(code, body, layout, other.as_slice())?;
                    code.set(behind, Instr::Jump(code.place()));
                    Ok(())
                }
            }
        }
        Stmt::Bounded(test, most, turn) => {
            let counter = body.loops;
            body.loops = counter + 1;
            code.push(Instr::Zero(counter))?;
            let again = code.place();
            emit_expr(code, layout, test)?;
            code.push(Instr::Guard {
                counter,
                bound: *most,
            })?;
            let out = code.hold()?;
            emit_stmts(code, body, layout, turn.as_slice())?;
            code.push(Instr::Jump(again))?;
            code.set(out, Instr::JumpZero(code.place()));
            Ok(())
        }
        Stmt::Timed(test, turn) => {
            let again = code.place();
            emit_expr(code, layout, test)?;
            let out = code.hold()?;
            emit_stmts(code, body, layout, turn.as_slice())?;
            code.push(Instr::Jump(again))?;
            code.set(out, Instr::JumpZero(code.place()));
            Ok(())
        }
        Stmt::Send {
            value,
            stream,
            after,
            clock,
        } => {
            emit_expr(code, layout, value)?;
            code.push(Instr::Send {
                stream: *stream,
                after: *after,
                clock: *clock,
            })
        }
        Stmt::Advance(point) => {
            code.push(Instr::Advance(*point))?;
            body.places.push(code.place())?;
            Ok(())
        }
        Stmt::Return(value) => {
            emit_expr(code, layout, value)?;
            code.push(Instr::Return)
        }
    }
}

#[cycle(emit_stmt)]
pub fn emit_stmts(
    code: &mut Instrs,
    body: &mut Body,
    layout: &Layout,
    stmts: &[Stmt],
) -> Result<(), Memory>
    requires room { length code.old + stmts_size stmts.now < 2 ^ 32 }
    requires counters { body.old.loops + loops_in stmts.now < 2 ^ 32 }
    ensures code { OnOk result (code.new ≡ code.old ++ stmts_code layout.now stmts.now body.old.loops (length code.old)) }
    ensures places { OnOk result (body.new.places ≡ body.old.places ++ stmts_places stmts.now (length code.old)) }
    ensures loops { OnOk result (body.new.loops ≡ body.old.loops + loops_in stmts.now) }
{
    for stmt in stmts {
        emit_stmt(code, body, layout, stmt)?;
    }
    Ok(())
}
