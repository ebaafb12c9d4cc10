//! The variables at which the ways from an agent's points look.

ghost use Rattle.std.specs.Prelude.{◌≡◌, ◌+◌, ◌++◌, ◌≤◌, ℕ, false, get_or, length, nat_lt, IfOk, OnOk};
ghost use Rattle.psy_tree.specs.declared.unit.Unit.{Unit as Whole};
ghost use Rattle.psy_meaning.specs.Flow.{MayLook};
ghost use Rattle.psy_meaning.specs.ListedWays.{AreLooks};
ghost use Rattle.psy_flow.specs.Agents.{IsOfSome, IsAgentOf};
ghost use Rattle.psy_flow.specs.Listed.{AreLonger, AreLooksBelow, AreOf, if_so};

use crate::backwards::counts_of_points;
use crate::gauge::Gauge;
use crate::laws::{known, named, texts};
use crate::texts::looked_at;
use psy_base::{Items, Memory};
use psy_lists::empty_lists;
use psy_tree::AgentDecl;
use std::alloc::Global;

fn push_if(list: &mut Items<u32>, variable: u32, looks: bool) -> Result<(), Memory>
    ensures { OnOk result (list.new ≡ list.old ++ if_so looks variable) }
{
    if looks {
        list.push(variable)?;
    }
    Ok(())
}

// Adds a variable to the list of each point with a count.
fn add_where(lists: &mut [Items<u32>], variable: u32, counts: &[u64]) -> Result<(), Memory>
    requires { length lists.old ≤ length counts.now }
    ensures as_many { length lists.new ≡ length lists.old }
    ensures longer { OnOk result (AreLonger (λ point. if_so (nat_lt 0 (get_or counts.now point 0)) variable) lists.old lists.new) }
{
    'points: for point in 0..lists.len() {
        push_if(&mut lists[point], variable, counts[point] > 0)?;
    }
    Ok(())
}

// Adds a variable to the list of each point from which a way looks at it, by one walk, and by none where the text doesn't look at it.
fn add_variable(
    alloc: Global,
    lists: &mut [Items<u32>],
    agent: &AgentDecl,
    variable: u32,
    looked: bool,
) -> Result<(), Memory>
    requires text { IsOfSome agent.now }
    requires count { length lists.old ≡ length agent.now.points }
    requires looked { looked ≡ false → (unit : Whole) (number point : ℕ) → IsAgentOf unit number agent.now
        → MayLook unit.functions agent.now point variable → ⊥ }
    ensures as_many { length lists.new ≡ length lists.old }
    ensures looks { OnOk result ((unit : Whole) (number : ℕ) → IsAgentOf unit number agent.now
        → AreOf agent.now (λ point. AreLooksBelow unit.functions agent.now point variable) lists.old
        → AreOf agent.now (λ point. AreLooksBelow unit.functions agent.now point (variable + 1)) lists.new) }
{
    if !looked {
        return Ok(());
    }
    known();
    let gauge = Gauge::Looks(variable);
    let counts = counts_of_points(alloc, gauge, None, &[], agent.stmts.as_slice())?;
    add_where(lists, variable, counts.as_slice())?;
    Ok(())
}

/// By point of an agent, all variables at which a way from it looks, in rising order, where the program has so many variables: by one walk
/// through the body for each variable at which it looks. The only error is want of memory.
pub fn looks_by_point(
    alloc: Global,
    agent: &AgentDecl,
    variables: u32,
) -> Result<Items<Items<u32>>, Memory>
    requires text { IsOfSome agent.now }
    ensures { IfOk result (λ lists. (unit : Whole) (number : ℕ) → IsAgentOf unit number agent.now → length unit.variables ≡ variables
        → AreOf agent.now (AreLooks unit.functions agent.now) lists) }
{
    named();
    texts();
    let looked = looked_at(alloc, agent.stmts.as_slice(), variables as usize)?;
    let mut lists = empty_lists(alloc, agent.points.len())?;
    'variables: for variable in 0..variables {
        let names = looked.as_slice()[variable as usize];
        add_variable(alloc, lists.as_mut_slice(), agent, variable, names)?;
    }
    Ok(Items::from_vec(lists))
}
