//! Expressions with numbers for names.

ghost use Rattle.std.specs.Prelude.{◌≡◌, ◌<◌, ◌≤◌, ◌^◌, map, length, IfOk, IfSome, Some, None};
ghost use Rattle.psy_tree.specs.Scope.{stands_for};
ghost use Rattle.psy_tree.specs.Rules.{is_clock, is_agent, is_function, is_stream};
ghost use Rattle.psy_tree.specs.Stands as stands;
ghost use Rattle.psy_arith.specs.declared.width.Width.TheVariants.{W32};
ghost use Rattle.psy_rules.specs.Numbering.{before_of, before_in};
ghost use Rattle.psy_rules.specs.Lowered.{site, IsNumbered};

use crate::numbers::Before;
use crate::scope::Scope;
use psy_arith::Width;
use psy_base::limits::NAMES;
use psy_base::{Boxed, Items, Memory};
use psy_tree::{Expr, Found, Lit, Name, RawExpr};
use sqlite_items::at;
use std::alloc::Global;
use std::marker::Model;

/// A scope, and the numbers of the declarations.
#[derive(Clone, Copy)]
pub struct Numbered<'a> {
    pub scope: Scope<'a>,
    pub before: &'a [Before],
    /// What an `advance` without a budget of its own gives.
    pub budget: u32,
}

/// What stands before a declaration that was found.
pub fn before_found(before: &[Before], found: Option<Found>) -> Option<Before>
    ensures { result ≡ before_in before.now found }
{
    match found {
        Some(Found::Item(k)) => at(before, k).copied(),
        _ => None,
    }
}

impl Numbered<'_> {
    fn before(&self, name: &Name) -> Option<Before>
        requires { IsNumbered self.now }
        ensures { result ≡ before_of (site self.now).items (stands_for (site self.now) name.now.text) }
    {
        before_found(self.before, self.scope.find(&name.text))
    }

    pub fn clock(&self, name: &Name) -> u32
        requires { IsNumbered self.now }
        ensures { result ≡ stands.number_at is_clock (site self.now) name.now }
    {
        match self.before(name) {
            None => 0,
            Some(before) => before.clocks,
        }
    }

    pub fn variable(&self, name: &Name) -> u32
        requires { IsNumbered self.now }
        ensures { result ≡ stands.number_at stands.is_variable (site self.now) name.now }
    {
        match self.before(name) {
            None => 0,
            Some(before) => before.variables,
        }
    }

    pub fn stream(&self, name: &Name) -> u32
        requires { IsNumbered self.now }
        ensures { result ≡ stands.number_at is_stream (site self.now) name.now }
    {
        match self.before(name) {
            None => 0,
            Some(before) => before.streams,
        }
    }

    fn function(&self, name: &Name) -> u32
        requires { IsNumbered self.now }
        ensures { result ≡ stands.number_at is_function (site self.now) name.now }
    {
        match self.before(name) {
            None => 0,
            Some(before) => before.functions,
        }
    }

    pub fn slot(&self, name: &Name) -> u32
        requires { IsNumbered self.now }
        ensures { result ≡ stands.slot_number (stands_for (site self.now) name.now.text) }
    {
        slot_number(self.scope.find(&name.text))
    }

    /// The type of what a name stands for.
    pub fn width(&self, name: &Name) -> Width
        requires { IsNumbered self.now }
        ensures { result ≡ stands.width_at (site self.now) (stands_for (site self.now) name.now.text) }
    {
        self.scope.width(self.scope.find(&name.text))
    }
}

fn slot_number(found: Option<Found>) -> u32
    requires { stands.slot_number found ≤ NAMES }
    ensures { result ≡ stands.slot_number found }
{
    match found {
        Some(Found::Slot(k)) => k as u32,
        _ => 0,
    }
}

pub fn signed(number: Lit) -> i32
    ensures { result ≡ stands.signed number }
{
    number.value.cast_signed()
}

fn value_expr(numbered: &Numbered<'_>, name: &Name) -> Expr
    requires { IsNumbered numbered.now }
    ensures { result ≡ stands.value_of (site numbered.now) (stands_for (site numbered.now) name.now.text) }
{
    match numbered.scope.find(&name.text) {
        Some(Found::Item(_)) => Expr::Copy(numbered.variable(name)),
        _ => Expr::Slot(numbered.slot(name)),
    }
}

/// An expression of the unit, and the type that the text gives it.
#[derive(Debug, Drop)]
struct Typed {
    expr: Expr,
    width: Width,
}

impl Model for Typed {
    ghost use Rattle.std.specs.Coded.{codes};
    ghost use Rattle.psy_tree.specs.contracts.unit.Expr as of_unit;
    ghost use Rattle.psy_tree.specs.Stands.{Typed as Told};

    ghost Value = { Told };

    ghost coded = { Prim.hlevel (codes, of_unit.the_row.coded) };

    ghost view = { λ t. record { expr = t.expr; width = t.width } };
}

/// An expression of type `int`.
fn int(expr: Expr) -> Typed
    ensures { result ≡ stands.int_typed expr }
{
    Typed {
        expr,
        width: Width::W32,
    }
}

/// An expression where a value of a type goes: narrowed where that type is narrower than its own.
fn into(alloc: Global, width: Width, typed: Typed) -> Result<Expr, Memory>
    ensures { IfOk result (λ e. e ≡ stands.into width typed) }
{
    if width.is_narrower(typed.width) {
        return Ok(Expr::Cast(width, Boxed::new(alloc, typed.expr)?));
    }
    Ok(typed.expr)
}

#[cycle(lower_typed)]
fn lower_typed(alloc: Global, numbered: &Numbered<'_>, expr: &RawExpr) -> Result<Typed, Memory>
    requires { IsNumbered numbered.now }
    ensures { IfOk result (λ e. e ≡ stands.typed_of (site numbered.now) expr.now) }
{
    match expr {
        RawExpr::Number(number) => Ok(int(Expr::Number(signed(*number)))),
        RawExpr::Var(name) => Ok(Typed {
            expr: value_expr(numbered, name),
            width: numbered.width(name),
        }),
        RawExpr::Cell(name, index) => {
            let index = lower_typed(alloc, numbered, index.get())?;
            Ok(Typed {
                expr: Expr::Cell(numbered.slot(name), Boxed::new(alloc, index.expr)?),
                width: numbered.width(name),
            })
        }
        RawExpr::Past { name, back, .. } => {
            Ok(int(Expr::Past(numbered.variable(name), back.value)))
        }
        RawExpr::Ready { name, .. } => Ok(int(Expr::Ready(numbered.stream(name)))),
        RawExpr::Take { name, .. } => Ok(int(Expr::Take(numbered.stream(name)))),
        RawExpr::Unary(op, operand) => {
            let operand = lower_typed(alloc, numbered, operand.get())?;
            let width = operand.width;
            Ok(Typed {
                expr: Expr::Unary(*op, width, Boxed::new(alloc, operand.expr)?),
                width: width.after_one(*op),
            })
        }
        RawExpr::Binary(op, left, right) => {
            let left = lower_typed(alloc, numbered, left.get())?;
            let right = lower_typed(alloc, numbered, right.get())?;
            let width = left.width.wider(right.width);
            let left = Boxed::new(alloc, left.expr)?;
            let right = Boxed::new(alloc, right.expr)?;
            Ok(Typed {
                expr: Expr::Binary(*op, width, left, right),
                width: width.after_two(*op),
            })
        }
        RawExpr::Call(name, arguments) => {
            let arguments = lower_arguments(alloc, numbered, arguments.as_slice())?;
            Ok(int(Expr::Call(numbered.function(name), arguments)))
        }
        RawExpr::Cast(width, operand) => {
            let operand = lower_typed(alloc, numbered, operand.get())?;
            Ok(Typed {
                expr: into(alloc, *width, operand)?,
                width: *width,
            })
        }
    }
}

/// What is passed to parameters, which are of type `int`.
#[cycle(lower_typed)]
fn lower_arguments(
    alloc: Global,
    numbered: &Numbered<'_>,
    exprs: &[RawExpr],
) -> Result<Items<Expr>, Memory>
    requires { IsNumbered numbered.now }
    ensures { IfOk result (λ es. es ≡ map (stands.into W32) (map (stands.typed_of (site numbered.now)) exprs.now)) }
{
    let mut lowered = Items::new(alloc);
    for expr in exprs {
        let argument = lower_typed(alloc, numbered, expr)?;
        lowered.push(into(alloc, Width::W32, argument)?)?;
    }
    Ok(lowered)
}

/// An index or a test, which may have any type.
pub fn lower_expr(alloc: Global, numbered: &Numbered<'_>, expr: &RawExpr) -> Result<Expr, Memory>
    requires { IsNumbered numbered.now }
    ensures { IfOk result (λ e. e ≡ stands.expr_of (site numbered.now) expr.now) }
{
    let typed = lower_typed(alloc, numbered, expr)?;
    Ok(typed.expr)
}

/// An expression that stands where a value of a type is asked for.
pub fn lower_into(
    alloc: Global,
    numbered: &Numbered<'_>,
    width: Width,
    expr: &RawExpr,
) -> Result<Expr, Memory>
    requires { IsNumbered numbered.now }
    ensures { IfOk result (λ e. e ≡ stands.expr_into (site numbered.now) width expr.now) }
{
    let typed = lower_typed(alloc, numbered, expr)?;
    into(alloc, width, typed)
}
