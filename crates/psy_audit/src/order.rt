//! The order in which ties of deadlines go.
ghost use Rattle.std.specs.Prelude.{◌≡◌, ◌<◌, ◌≤◌, ℕ, List, IfOk};
ghost use Rattle.std.specs.List.{range_with_len};
ghost use Rattle.psy_history.specs.Scripts.{in_force};

use crate::cycles::earlier;
use psy_base::{Items, Memory};
use psy_history::Order;
use std::alloc::Global;

/// So many agents, in the order of their declaration.
pub fn declared_of(alloc: Global, agents: u32) -> Result<Items<u32>, Memory>
    ensures { IfOk result (λ declared. declared ≡ range_with_len 0 agents) }
{
    let mut declared = Items::new(alloc);
    'agents: for agent in 0..agents {
        declared.push(agent)?;
    }
    Ok(declared)
}

/// The order in force at a cycle.
pub fn order_at<'a>(declared: &'a [u32], orders: &'a [Order], cycle: u64) -> &'a [u32]
    ensures { result.now ≡ in_force declared.now orders.now cycle }
{
    let mut order = declared;
    'orders: for told in orders {
        if told.cycle > cycle {
            return order;
        }
        order = told.agents.as_slice();
    }
    order
}

/// The next cycle behind this one from which on another order is in force, or the last one where there is none before it.
pub fn next_order(orders: &[Order], cycle: u64, to: u64) -> u64
    requires { cycle < to }
    ensures behind { cycle < result }
    ensures within { result ≤ to }
    ensures same { (declared : List ℕ) (c : ℕ) → cycle ≤ c → c < result → in_force declared orders.now c ≡ in_force declared orders.now cycle }
{
    let mut next = to;
    'orders: for told in orders {
        next = earlier(next, cycle, told.cycle);
    }
    next
}
