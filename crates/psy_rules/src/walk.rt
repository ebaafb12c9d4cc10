//! The faults of expressions and statements.

ghost use Rattle.std.specs.Prelude.{◌≡◌, ◌&&◌, ◌||◌, nat_lt, map};
ghost use Rattle.psy_tree.specs.Places.{expr_places, stmt_places, stmts_places, most_places, budget_places, joined, Loops};
ghost use Rattle.psy_tree.specs.Paths as paths;
ghost use Rattle.psy_tree.specs.Scope.{Site};
ghost use Rattle.psy_rules.specs.Sites.{site_of, IsScope};
ghost use Rattle.psy_rules.specs.Judged.{judged, judged_all};

use crate::least::Least;
use crate::scope::Scope;
use crate::uses::{judge_act, judge_back, judge_range, judge_return, judge_use};
use psy_base::limits;
use psy_tree::{Asks, Lit, Name, RawExpr, RawStmt, RuleKind};

/// What is known of the paths through statements.
#[derive(Clone, Copy, Debug, PartialEq, Eq)]
pub struct Paths {
    /// A path through them has no `advance`.
    pub quiet: bool,
    /// An `advance` stands in them.
    pub advances: bool,
}

impl Paths {
    /// Those through these statements and then through more.
    fn and(self, more: Paths) -> Paths
        ensures quiet { result.quiet ≡ (self.quiet && more.quiet) }
        ensures advances { result.advances ≡ (self.advances || more.advances) }
    {
        Paths {
            quiet: self.quiet && more.quiet,
            advances: self.advances || more.advances,
        }
    }
}

impl Paths {
    /// Those through the one or the other.
    fn or(self, other: Paths) -> Paths
        ensures quiet { result.quiet ≡ (self.quiet || other.quiet) }
        ensures advances { result.advances ≡ (self.advances || other.advances) }
    {
        Paths {
            quiet: self.quiet || other.quiet,
            advances: self.advances || other.advances,
        }
    }
}

const STILL: Paths = Paths {
    quiet: true,
    advances: false,
};

#[cycle(expr)]
#[tactic(auto, using(crate::proofs::Judging::judged_all_append))]
pub fn walk_expr(scope: &Scope<'_>, expr: &RawExpr, least: &mut Least)
    requires { IsScope scope.now }
    ensures { least.new.fault ≡ judged_all (site_of scope.now) (expr_places expr.now) least.old.fault }
{
    match expr {
        RawExpr::Number(_) => {}
        RawExpr::Var(name) => judge_use(scope, name, Asks::Value, least),
        RawExpr::Cell(name, index) => {
            judge_use(scope, name, Asks::Cell, least);
            walk_expr(scope, index.get(), least);
        }
        RawExpr::Past { token, name, back } => {
            judge_act(scope, *token, least);
            judge_use(scope, name, Asks::Past, least);
            judge_back(scope, name, *back, least);
        }
        RawExpr::Ready { token, name } => {
            judge_act(scope, *token, least);
            judge_use(scope, name, Asks::Messages, least);
        }
        RawExpr::Take { token, name } => {
            judge_act(scope, *token, least);
            judge_use(scope, name, Asks::Messages, least);
        }
        RawExpr::Unary(_, operand) => walk_expr(scope, operand.get(), least),
        RawExpr::Binary(_, left, right) => {
            walk_expr(scope, left.get(), least);
            walk_expr(scope, right.get(), least);
        }
        RawExpr::Call(name, arguments) => {
            judge_use(scope, name, Asks::Call(arguments.len()), least);
            walk_exprs(scope, arguments.as_slice(), least);
        }
        RawExpr::Cast(_, operand) => walk_expr(scope, operand.get(), least),
    }
}

#[cycle(expr)]
fn walk_exprs(scope: &Scope<'_>, exprs: &[RawExpr], least: &mut Least)
    requires { IsScope scope.now }
    ensures { least.new.fault ≡ judged_all (site_of scope.now) (joined (map expr_places exprs.now)) least.old.fault }
{
    for expr in exprs {
        walk_expr(scope, expr, least);
    }
}

fn judge_most(most: Option<Lit>, least: &mut Least)
    ensures { (site : Site) → least.new.fault ≡ judged_all site (most_places most) least.old.fault }
{
    if let Some(most) = most {
        judge_range(most, 1, limits::TURNS, least);
    }
}

fn judge_budget(budget: Option<Lit>, least: &mut Least)
    ensures { (site : Site) → least.new.fault ≡ judged_all site (budget_places budget) least.old.fault }
{
    if let Some(budget) = budget {
        judge_range(budget, 1, limits::BUDGET, least);
    }
}

#[tactic(auto, unfolding(crate::specs::Judged::judged))]
fn judge_loop(token: u32, bounded: bool, body: Paths, least: &mut Least)
    ensures { (site : Site) → least.new.fault ≡ judged site (Loops token bounded body.advances body.quiet) least.old.fault }
{
    least.note(!bounded && !body.advances, RuleKind::NoMax, token);
    least.note(
        body.advances && (bounded || body.quiet),
        RuleKind::MixedLoop,
        token,
    );
}

/// Notes what is wrong with an `advance`.
#[tactic(auto, using(psy_tree::proofs::lemmas::PlacesOf::places_advance))]
fn judge_advance(
    scope: &Scope<'_>,
    token: u32,
    count: Lit,
    clock: &Name,
    budget: Option<Lit>,
    least: &mut Least,
)
    requires { IsScope scope.now }
    ensures { least.new.fault ≡ judged_all (site_of scope.now) (stmt_places (RawStmt.Advance token count clock.now budget)) least.old.fault }
{
    judge_act(scope, token, least);
    judge_range(count, 1, limits::ADVANCE, least);
    judge_use(scope, clock, Asks::Clock, least);
    judge_budget(budget, least);
}

#[cycle(stmt)]
#[tactic(auto, using(crate::proofs::Paths::judged_all_append, crate::proofs::Paths::positive_sum, crate::proofs::Paths::firsts, crate::proofs::Paths::seconds))]
fn walk_stmt(scope: &Scope<'_>, stmt: &RawStmt, least: &mut Least) -> Paths
    requires { IsScope scope.now }
    ensures least { least.new.fault ≡ judged_all (site_of scope.now) (stmt_places stmt.now) least.old.fault }
    ensures quiet { result.quiet ≡ paths.quiet stmt.now }
    ensures advances { result.advances ≡ nat_lt 0 (paths.advances stmt.now) }
{
    match stmt {
        RawStmt::Set(name, value) => {
            judge_use(scope, name, Asks::Value, least);
            walk_expr(scope, value, least);
            STILL
        }
        RawStmt::SetCell(name, index, value) => {
            judge_use(scope, name, Asks::Cell, least);
            walk_expr(scope, index, least);
            walk_expr(scope, value, least);
            STILL
        }
        RawStmt::If(test, branch, other) => {
            walk_expr(scope, test, least);
            let branch = walk_stmts(scope, branch.as_slice(), least);
            match other {
                None => Paths {
                    quiet: true,
                    advances: branch.advances,
                },
                Some(other) => {
                    let other = walk_stmts(scope, other.as_slice(), least);
                    branch.or(other)
                }
            }
        }
        RawStmt::While {
            token,
            test,
            max,
            body,
        } => {
            walk_expr(scope, test, least);
            judge_most(*max, least);
            let body = walk_stmts(scope, body.as_slice(), least);
            judge_loop(*token, max.is_some(), body, least);
            Paths {
                quiet: true,
                advances: body.advances,
            }
        }
        RawStmt::Send {
            token,
            value,
            stream,
            after,
            clock,
        } => {
            judge_act(scope, *token, least);
            walk_expr(scope, value, least);
            judge_use(scope, stream, Asks::Target, least);
            judge_range(*after, 0, limits::AFTER, least);
            judge_use(scope, clock, Asks::Clock, least);
            STILL
        }
        RawStmt::Advance {
            token,
            count,
            clock,
            budget,
        } => {
            judge_advance(scope, *token, *count, clock, *budget, least);
            Paths {
                quiet: false,
                advances: true,
            }
        }
        RawStmt::Return { token, value } => {
            judge_return(scope, *token, least);
            walk_expr(scope, value, least);
            STILL
        }
    }
}

#[cycle(stmt)]
pub fn walk_stmts(scope: &Scope<'_>, stmts: &[RawStmt], least: &mut Least) -> Paths
    requires { IsScope scope.now }
    ensures least { least.new.fault ≡ judged_all (site_of scope.now) (stmts_places stmts.now) least.old.fault }
    ensures quiet { result.quiet ≡ paths.quiet_list stmts.now }
    ensures advances { result.advances ≡ nat_lt 0 (paths.advances_list stmts.now) }
{
    let mut paths = STILL;
    for stmt in stmts {
        let here = walk_stmt(scope, stmt, least);
        paths = paths.and(here);
    }
    paths
}
