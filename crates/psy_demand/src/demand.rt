//! The processor demand criterion for one processor, over lists of weights (Baruah, Rosier, Howell 1990).
ghost use Rattle.std.specs.Prelude.{◌≡◌, ◌+◌, ◌^◌, ◌<◌, ◌≤◌, All, length, slice_index};
ghost use Rattle.psy_base.specs.declared.limits.TheConstants.{AGENTS};
ghost use Rattle.psy_demand.specs.Demand.{IsVerdict, demand};

use psy_base::Items;

/// Whether the demand on a processor fits at each length.
#[derive(Clone, Copy, Debug, PartialEq, Eq)]
pub enum Verdict {
    /// It fits at each.
    Yes,
    /// At this length, the least of such, it doesn't fit, and is so many cycles there.
    No { length: u32, demand: u64 },
}

/// What a list has at a length.
fn entry(list: &Items<u64>, at: u32) -> u64
    requires { at < length list.now }
    ensures { result ≡ slice_index list.now at }
{
    list.get(at as usize).copied().unwrap_or(0)
}

// The sum of what lists have at a length.
fn demand_at(lists: &[Items<u64>], at: u32) -> u64
    requires few { length lists.now ≤ AGENTS }
    requires long { All (λ list. at < length list) lists.now }
    requires small { All (All (λ entry. entry < 2 ^ 50)) lists.now }
    ensures { result ≡ demand lists.now at }
{
    let mut sum = 0;
    for list in lists {
        sum += entry(list, at);
    }
    sum
}

/// Whether the demand on a processor, the sum of what these lists have at a length, is at most `quantum` times that length, at each length from 1
/// to `top`. It takes no memory.
pub fn feasible(lists: &[Items<u64>], quantum: u32, top: u32) -> Verdict
    requires few { length lists.now ≤ AGENTS }
    requires long { All (λ list. length list ≡ top + 1) lists.now }
    requires small { All (All (λ entry. entry < 2 ^ 50)) lists.now }
    ensures { IsVerdict lists.now quantum top result }
{
    for length in 1..=top {
        let demand = demand_at(lists, length);
        let supply = u64::from(quantum) * u64::from(length);
        if demand > supply {
            return Verdict::No { length, demand };
        }
    }
    Verdict::Yes
}
