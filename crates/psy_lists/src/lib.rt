//! Lists that grow, and what several layers know of lists, tests and results: its lemmas are open to the crates above.
//! It may know memory and lists; none of what stands in them.
#![tactic(auto)]

ghost use Rattle.std.specs.Prelude.{◌≡◌, ◌++◌, ◌∷◌, [], replicate, IfOk, OnOk};

use psy_base::{Items, Memory};
use std::alloc::Global;

/// A list with one more. The only error is want of memory.
pub fn push<T: Drop>(list: &mut Items<T>, item: T) -> Result<(), Memory>
    ensures { OnOk result (list.new ≡ list.old ++ item ∷ []) }
{
    list.push(item)?;
    Ok(())
}

/// So many lists, each of them empty. The only error is want of memory.
pub fn empty_lists<T: Drop>(alloc: Global, count: usize) -> Result<Vec<Items<T>>, Memory>
    ensures { IfOk result (λ lists. lists.items ≡ replicate count []) }
{
    let mut lists = Vec::new(alloc);
    'lists: for _ in 0..count {
        lists.push(Items::new(alloc))?;
    }
    Ok(lists)
}
