//! The greatest counts behind all points of a body, by one walk from its end to its head.

ghost use Rattle.std.specs.Prelude.{◌≡◌, ◌++◌, IfOk, OnOk, reverse};
ghost use Rattle.psy_meaning.specs.Rest.{rests_of, rests_of_list};
ghost use Rattle.psy_flow.specs.Costs.{AreCounts, counts_then};
ghost use Rattle.psy_flow.specs.Tops.{called, capped_tops, stmt_tops, stmts_tops};
ghost use Rattle.psy_flow.specs.Tops as tops;

use crate::counts::{most_of_expr, tops_of_stmt, tops_of_stmts};
use crate::gauge::Gauge;
use crate::tops::Tops;
use psy_base::{Items, Memory};
use psy_tree::Stmt;
use std::alloc::Global;

// Lists the greatest counts behind each `advance` in a statement, the last one first, where `last` stands behind it, and gives the
// counts of the statement and what stands behind it.
#[cycle(back)]
fn back_in(
    gauge: Gauge,
    wanted: Option<u32>,
    row: &[u64],
    stmt: &Stmt,
    last: Tops,
    counts: &mut Vec<u64>,
) -> Result<Tops, Memory>
    requires counted { last ≡ capped_tops gauge last }
    ensures whole { IfOk result (λ t. t ≡ capped_tops gauge (tops.and_on (stmt_tops gauge wanted (called row.now) stmt.now) last)) }
    ensures counts { OnOk result (counts.new.items ≡ counts.old.items ++ reverse (counts_then gauge wanted (called row.now) (rests_of stmt.now) last)) }
{
    match stmt {
        Stmt::Advance(_) => {
            counts.push(last.to.unwrap_or(0))?;
            Ok(tops_of_stmt(gauge, wanted, row, stmt).and_on(gauge, last))
        }
        Stmt::If(test, branch, other) => {
            let test = gauge.sum(most_of_expr(gauge, row, test), gauge.step());
            match other {
                None => {
                    let branch = back(gauge, wanted, row, branch.as_slice(), last, counts)?;
                    Ok(branch.or_else(last).behind(gauge, test))
                }
                Some(other) => {
                    let other = back(gauge, wanted, row, other.as_slice(), last, counts)?;
                    let jump = last.behind(gauge, gauge.step());
                    let branch = back(gauge, wanted, row, branch.as_slice(), jump, counts)?;
                    Ok(branch.or_else(other).behind(gauge, test))
                }
            }
        }
        Stmt::Timed(_, turn) => {
            let whole = tops_of_stmt(gauge, wanted, row, stmt).and_on(gauge, last);
            let again = whole.behind(gauge, gauge.step());
            back(gauge, wanted, row, turn.as_slice(), again, counts)?;
            Ok(whole)
        }
        Stmt::Bounded(_, _, turn) => {
            back(gauge, wanted, row, turn.as_slice(), last, counts)?;
            Ok(tops_of_stmt(gauge, wanted, row, stmt).and_on(gauge, last))
        }
        _ => Ok(tops_of_stmt(gauge, wanted, row, stmt).and_on(gauge, last)),
    }
}

// The same for statements one after the other.
#[cycle(back)]
fn back(
    gauge: Gauge,
    wanted: Option<u32>,
    row: &[u64],
    stmts: &[Stmt],
    last: Tops,
    counts: &mut Vec<u64>,
) -> Result<Tops, Memory>
    requires counted { last ≡ capped_tops gauge last }
    ensures whole { IfOk result (λ t. t ≡ capped_tops gauge (tops.and_on (stmts_tops gauge wanted (called row.now) stmts.now) last)) }
    ensures counts { OnOk result (counts.new.items ≡ counts.old.items ++ reverse (counts_then gauge wanted (called row.now) (rests_of_list stmts.now) last)) }
{
    let mut behind = last;
    'each: for place in (0..stmts.len()).rev() {
        behind = back_in(gauge, wanted, row, &stmts[place], behind, counts)?;
    }
    Ok(behind)
}

/// The greatest count to a next point behind each point of a body, by point: that of the body for point 0, and else of what is behind that
/// `advance`, a jump, and the body again. Each statement is counted twice, and once more for each loop around it. The only error is
/// want of memory.
pub fn counts_of_points(
    alloc: Global,
    gauge: Gauge,
    wanted: Option<u32>,
    row: &[u64],
    stmts: &[Stmt],
) -> Result<Items<u64>, Memory>
    ensures { IfOk result (AreCounts gauge wanted (called row.now) stmts.now) }
{
    let body = tops_of_stmts(gauge, wanted, row, stmts);
    let again = body.behind(gauge, gauge.step());
    let mut counts = Vec::new(alloc);
    back(gauge, wanted, row, stmts, again, &mut counts)?;
    counts.push(body.to.unwrap_or(0))?;
    counts.reverse();
    Ok(Items::from_vec(counts))
}
