//! The number of a declaration among those of its kind.
ghost use Rattle.std.specs.Prelude.{◌≡◌, IfOk};
ghost use Rattle.psy_rules.specs.Numbering.{before_and, AreFew, IsSmall, AreNumbers};

use psy_base::Memory;
use psy_tree::Item;
use std::alloc::Global;

/// How many declarations of each kind stand before one: its number among those of its kind.
#[derive(Clone, Copy, Debug, PartialEq, Eq)]
pub struct Before {
    pub clocks: u32,
    pub agents: u32,
    /// Temporal variables and inputs together.
    pub variables: u32,
    pub streams: u32,
    pub functions: u32,
}

const NONE: Before = Before {
    clocks: 0,
    agents: 0,
    variables: 0,
    streams: 0,
    functions: 0,
};

fn and(before: Before, item: &Item) -> Before
    requires { IsSmall before }
    ensures { result ≡ before_and before item.now }
{
    match item {
        Item::Clock { .. } => Before {
            clocks: before.clocks + 1,
            ..before
        },
        Item::Temporal { .. } | Item::Input { .. } => Before {
            variables: before.variables + 1,
            ..before
        },
        Item::Stream { .. } => Before {
            streams: before.streams + 1,
            ..before
        },
        Item::Function { .. } => Before {
            functions: before.functions + 1,
            ..before
        },
        Item::Agent { .. } => Before {
            agents: before.agents + 1,
            ..before
        },
    }
}

/// By declaration, how many stand before it.
pub fn numbers(alloc: Global, items: &[Item]) -> Result<Vec<Before>, Memory>
    requires { AreFew items.now }
    ensures { IfOk result (λ v. AreNumbers items.now v.items) }
{
    let mut numbers = Vec::new(alloc);
    let mut before = NONE;
    for item in items {
        numbers.push(before)?;
        before = and(before, item);
    }
    Ok(numbers)
}
