//! Inputs without lists.
ghost use Rattle.std.specs.Prelude.{◌≡◌, [], map, IfOk};

use crate::told::Inputs;
use psy_base::{Items, Memory};
use psy_lists::push;
use psy_tree::Unit;
use std::alloc::Global;

/// No input of this program has a list of values. The only error is want of memory.
pub fn no_lists(alloc: Global, unit: &Unit) -> Result<Inputs, Memory>
    ensures { IfOk result (λ inputs. inputs.lists ≡ map (λ v. []) unit.now.variables) }
{
    let mut lists = Items::new(alloc);
    'variables: for _ in unit.variables.as_slice() {
        push(&mut lists, Items::new(alloc))?;
    }
    Ok(Inputs { lists })
}
