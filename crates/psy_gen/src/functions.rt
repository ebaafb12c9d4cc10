//! The code of functions.

ghost use Rattle.std.specs.Prelude.{◌≡◌, ◌+◌, ◌<◌, ◌^◌, ◌++◌, map, length, replicate, IfOk, OnOk};
ghost use Rattle.std.specs.List.{All};
ghost use Rattle.psy_meaning.specs.Units.{IsBareFunction};
ghost use Rattle.psy_gen.specs.Emission.{codes_from, function_code, function_layout, function_size, functions_size, function_entry, function_entries};

use crate::instrs::Instrs;
use crate::layout::Layout;
use crate::statements::{Body, emit_stmts};
use psy_base::{Items, Memory};
use psy_code::{FunctionCode, Instr};
use psy_tree::{FunctionDecl, LocalDecl};
use std::alloc::Global;

/// A cell for each parameter, and then for each local.
fn layout_of(alloc: Global, function: &FunctionDecl) -> Result<Layout, Memory>
    requires { function.now.params + length function.now.locals < 2 ^ 32 }
    ensures { IfOk result (λ layout. layout ≡ function_layout function.now) }
{
    let mut layout = Layout::new(alloc);
    for _ in 0..function.params {
        layout.add(1)?;
    }
    for _ in 0..function.locals.len() {
        layout.add(1)?;
    }
    Ok(layout)
}

/// The values with which locals begin.
fn first_values(alloc: Global, locals: &[LocalDecl]) -> Result<Items<i32>, Memory>
    ensures { IfOk result (λ values. values ≡ map (λ l. l.init) locals.now) }
{
    let mut values = Items::new(alloc);
    for local in locals {
        values.push(local.init)?;
    }
    Ok(values)
}

fn emit_function(
    alloc: Global,
    code: &mut Instrs,
    function: &FunctionDecl,
) -> Result<FunctionCode, Memory>
    requires function { IsBareFunction function.now }
    requires room { length code.old + function_size function.now < 2 ^ 32 }
    ensures code { OnOk result (code.new ≡ code.old ++ function_code function.now (length code.old)) }
    ensures entry { IfOk result (λ entry. entry ≡ function_entry function.now (length code.old)) }
{
    let layout = layout_of(alloc, function)?;
    let mut body = Body {
        places: Items::new(alloc),
        loops: 0,
    };
    let entry = code.place();
    emit_stmts(code, &mut body, &layout, function.stmts.as_slice())?;
    code.push(Instr::Push(0))?;
    code.push(Instr::Return)?;
    Ok(FunctionCode {
        entry,
        params: function.params,
        locals: first_values(alloc, function.locals.as_slice())?,
        counters: body.loops,
    })
}

pub fn emit_functions(
    alloc: Global,
    code: &mut Instrs,
    functions: &[FunctionDecl],
) -> Result<Items<FunctionCode>, Memory>
    requires functions { All IsBareFunction functions.now }
    requires room { length code.old + functions_size functions.now < 2 ^ 32 }
    ensures code { OnOk result (code.new ≡ code.old ++ codes_from function_code function_size functions.now (length code.old)) }
    ensures entries { IfOk result (λ entries. entries ≡ function_entries functions.now (length code.old)) }
{
    let mut entries = Items::new(alloc);
    for function in functions {
        entries.push(emit_function(alloc, code, function)?)?;
    }
    Ok(entries)
}
