//! Statements with numbers for names.

ghost use Rattle.std.specs.Prelude.{◌≡◌, ◌+◌, ◌≤◌, ◌++◌, ◌∷◌, [], length, IfOk, OnOk};
ghost use Rattle.psy_tree.specs.Scope.{stands_for};
ghost use Rattle.psy_tree.specs.Rules.{is_clock};
ghost use Rattle.psy_tree.specs.Paths as paths;
ghost use Rattle.psy_tree.specs.Stands as stands;
ghost use Rattle.psy_rules.specs.Lowered.{site, IsNumbered};

use crate::expressions::{Numbered, lower_expr, lower_into};
use psy_arith::Width;
use psy_base::limits::POINTS;
use psy_base::{Items, Memory};
use psy_tree::{Expr, Found, Lit, Name, Point, RawStmt, Stmt};
use std::alloc::Global;

fn set_stmt(numbered: &Numbered<'_>, name: &Name, value: Expr) -> Stmt
    requires { IsNumbered numbered.now }
    ensures { result ≡ stands.set_by (site numbered.now) (stands_for (site numbered.now) name.now.text) value }
{
    match numbered.scope.find(&name.text) {
        Some(Found::Item(_)) => Stmt::SetCopy(numbered.variable(name), value),
        _ => Stmt::Set(numbered.slot(name), value),
    }
}

fn while_stmt(most: Option<Lit>, test: Expr, body: Items<Stmt>) -> Stmt
    ensures { result ≡ stands.while_of most test body }
{
    match most {
        None => Stmt::Timed(test, body),
        Some(most) => Stmt::Bounded(test, most.value, body),
    }
}

fn budget_of(numbered: &Numbered<'_>, budget: Option<Lit>) -> u32
    requires { IsNumbered numbered.now }
    ensures { result ≡ stands.budget_of (site numbered.now) budget }
{
    match budget {
        None => numbered.budget,
        Some(budget) => budget.value,
    }
}

/// An `advance`; its point is added.
fn advance_stmt(
    numbered: &Numbered<'_>,
    count: Lit,
    clock: &Name,
    budget: Option<Lit>,
    points: &mut Items<Point>,
) -> Result<Stmt, Memory>
    requires numbered { IsNumbered numbered.now }
    requires room { length points.old ≤ POINTS }
    ensures stmt { IfOk result (λ s. s ≡ Stmt.Advance (length points.old)) }
    ensures points { OnOk result (points.new ≡ points.old ++ record {
      count = count.value;
      clock = stands.number_at is_clock
          (site numbered.now) clock.now;
      budget = stands.budget_of (site numbered.now) budget;
    } ∷ []) }
{
    let number = points.len() as u32;
    points.push(Point {
        count: count.value,
        clock: numbered.clock(clock),
        budget: budget_of(numbered, budget),
    })?;
    Ok(Stmt::Advance(number))
}

#[cycle(lower_stmt)]
fn lower_stmt(
    alloc: Global,
    numbered: &Numbered<'_>,
    stmt: &RawStmt,
    points: &mut Items<Point>,
) -> Result<Stmt, Memory>
    requires numbered { IsNumbered numbered.now }
    requires room { length points.old + paths.advances stmt.now ≤ 257 }
    ensures stmt { IfOk result (λ s. s ≡ (stands.stmt_of (site numbered.now) stmt.now points.old).0) }
    ensures points { OnOk result (points.new ≡ (stands.stmt_of (site numbered.now) stmt.now points.old).1) }
    ensures room { OnOk result (length points.new ≤ length points.old + paths.advances stmt.now) }
{
    match stmt {
        RawStmt::Set(name, value) => {
            let value = lower_into(alloc, numbered, numbered.width(name), value)?;
            Ok(set_stmt(numbered, name, value))
        }
        RawStmt::SetCell(name, index, value) => Ok(Stmt::SetCell(
            numbered.slot(name),
            lower_expr(alloc, numbered, index)?,
            lower_into(alloc, numbered, numbered.width(name), value)?,
        )),
        RawStmt::If(test, branch, other) => {
            let test = lower_expr(alloc, numbered, test)?;
            let branch = lower_stmts(alloc, numbered, branch.as_slice(), points)?;
            match other {
                None => Ok(Stmt::If(test, branch, None)),
                Some(other) => {
                    let other = lower_stmts(alloc, numbered, other.as_slice(), points)?;
                    Ok(Stmt::If(test, branch, Some(other)))
                }
            }
        }
        RawStmt::While {
            test,
            max,
            body,
            ..
        } => {
            let test = lower_expr(alloc, numbered, test)?;
            let body = lower_stmts(alloc, numbered, body.as_slice(), points)?;
            Ok(while_stmt(*max, test, body))
        }
        RawStmt::Send {
            value,
            stream,
            after,
            clock,
            ..
        } => Ok(Stmt::Send {
            value: lower_into(alloc, numbered, Width::W32, value)?,
            stream: numbered.stream(stream),
            after: after.value,
            clock: numbered.clock(clock),
        }),
        RawStmt::Advance {
            count,
            clock,
            budget,
            ..
        } => advance_stmt(numbered, *count, clock, *budget, points),
        RawStmt::Return { value, .. } => Ok(Stmt::Return(lower_into(
            alloc,
            numbered,
            Width::W32,
            value,
        )?)),
    }
}

#[cycle(lower_stmt)]
#[tactic(auto, using(crate::proofs::Lowering::room_more))]
pub fn lower_stmts(
    alloc: Global,
    numbered: &Numbered<'_>,
    stmts: &[RawStmt],
    points: &mut Items<Point>,
) -> Result<Items<Stmt>, Memory>
    requires numbered { IsNumbered numbered.now }
    requires room { length points.old + paths.advances_list stmts.now ≤ 257 }
    ensures stmts { IfOk result (λ ss. ss ≡ (stands.stmts_of (site numbered.now) stmts.now points.old).0) }
    ensures points { OnOk result (points.new ≡ (stands.stmts_of (site numbered.now) stmts.now points.old).1) }
    ensures room { OnOk result (length points.new ≤ length points.old + paths.advances_list stmts.now) }
{
    let mut lowered = Items::new(alloc);
    for stmt in stmts {
        lowered.push(lower_stmt(alloc, numbered, stmt, points)?)?;
    }
    Ok(lowered)
}
