//! The points that may follow a point.

ghost use Rattle.std.specs.Prelude.{◌≡◌, ◌<◌, ◌≤◌, ◌↔◌, ℕ, false, length, replicate, IfOk};
ghost use Rattle.std.specs.List.{All, Contains};
ghost use Rattle.psy_base.specs.declared.limits.TheConstants.{POINTS};
ghost use Rattle.psy_tree.specs.declared.unit.Unit.{Unit as Whole};
ghost use Rattle.psy_flow.specs.Agents.{IsOfSome, IsAgentOf};
ghost use Rattle.psy_meaning.specs.Flow.{AreNexts, IsNext, Rises};
ghost use Rattle.psy_flow.specs.Reach.{numbers_of};

use crate::laws::known;
use crate::reach::reach_from;
use psy_base::{Items, Memory};
use psy_lists::push;
use psy_tree::AgentDecl;
use std::alloc::Global;

/// So many marks, none of them set.
pub fn no_marks(alloc: Global, count: usize) -> Result<Items<bool>, Memory>
    ensures { IfOk result (λ marks. marks ≡ replicate count false) }
{
    let mut marks = Items::new(alloc);
    for _ in 0..count {
        marks.push(false)?;
    }
    Ok(marks)
}

/// The numbers that are marked, in rising order, of which there are as many at most as an agent has points.
pub fn marked_numbers(alloc: Global, marks: &[bool]) -> Result<Items<u32>, Memory>
    requires { length marks.now ≤ POINTS }
    ensures { IfOk result (λ numbers. numbers ≡ numbers_of marks.now) }
{
    let mut numbers = Items::new(alloc);
    for (number, marked) in marks.iter().enumerate() {
        if *marked {
            numbers.push(number as u32)?;
        }
    }
    Ok(numbers)
}

/// The points that the code behind a point may reach first, every test going either way, in rising order: at least one,
/// and none of them the head of the body. The only error is want of memory.
pub fn next_points(alloc: Global, agent: &AgentDecl, point: u32) -> Result<Items<u32>, Memory>
    requires text { IsOfSome agent.now }
    requires point { point < length agent.now.points }
    ensures rising { IfOk result Rises }
    ensures some { IfOk result (λ points. 0 < length points) }
    ensures within { IfOk result (λ points. All (λ p. (1 ≤ p) × (p < length agent.now.points)) points) }
    ensures next { IfOk result (λ points. (unit : Whole) (number : ℕ) → IsAgentOf unit number agent.now → (to : ℕ)
        → (Contains points to ↔ IsNext unit.functions agent.now point to)) }
{
    known();
    let mut marks = no_marks(alloc, agent.points.len())?;
    reach_from(&mut marks, agent.stmts.as_slice(), point);
    marked_numbers(alloc, marks.as_slice())
}

/// By point of an agent, the points that may follow it. The only error is want of memory.
pub fn nexts_by_point(alloc: Global, agent: &AgentDecl) -> Result<Items<Items<u32>>, Memory>
    requires { IsOfSome agent.now }
    ensures { IfOk result (λ lists. (unit : Whole) (number : ℕ) → IsAgentOf unit number agent.now → AreNexts unit.functions agent.now lists) }
{
    let mut lists = Items::new(alloc);
    'points: for point in 0..agent.points.len() as u32 {
        let next = next_points(alloc, agent, point)?;
        push(&mut lists, next)?;
    }
    Ok(lists)
}
