//! The greatest costs of the functions' calls.

ghost use Rattle.std.specs.Prelude.{◌≡◌, ◌≤◌, [], None, min, take, length};
ghost use Rattle.psy_base.specs.declared.limits.TheConstants.{FUNCTIONS};
ghost use Rattle.psy_flow.specs.Tops.{limit_of, called, call_most, stmts_tops, capped_from};

use crate::counts::tops_of_stmts;
use crate::gauge::Gauge;
use psy_base::limits;
use psy_tree::FunctionDecl;

/// The costs of the functions, one entry each, and then entries of no meaning.
pub type Costs = [u64; limits::FUNCTIONS];

// The greatest count of a call, where `above` has those of the functions above this one.
fn most_of_function(gauge: Gauge, above: &[u64], function: &FunctionDecl) -> u64
    ensures { result ≡ min (call_most gauge (stmts_tops gauge None (called above.now) function.now.stmts)) (limit_of gauge) }
{
    let tops = tops_of_stmts(gauge, None, above, function.stmts.as_slice());
    let two = gauge.sum(gauge.step(), gauge.step());
    match (tops.back, tops.fell) {
        (None, None) => 0,
        (Some(back), None) => back,
        (None, Some(fell)) => gauge.sum(two, fell),
        (Some(back), Some(fell)) => back.max(gauge.sum(two, fell)),
    }
}

/// Each function is measured once, in order: it calls only those above it.
pub fn costs_of_calls(gauge: Gauge, functions: &[FunctionDecl]) -> Costs
    requires { length functions.now ≤ FUNCTIONS }
    ensures { take (length functions.now) result ≡ capped_from gauge [] functions.now }
{
    let mut row = [0; limits::FUNCTIONS];
    for at in 0..functions.len() {
        row[at] = most_of_function(gauge, &row[..at], &functions[at]);
    }
    row
}
