//! Parts of declarations, without statements.
ghost use Rattle.std.specs.Prelude.{◌≡◌, ◌∷◌, [], IfOk};
ghost use Rattle.psy_arith.specs.declared.operators.Op2.TheVariants.{Add};
ghost use Rattle.psy_byhand.specs.Laps.{agent_of, onwards, tenth, variable_of};

use psy_arith::Op2;
use psy_base::{Items, Memory, Text};
use psy_clock::Clock;
use psy_code::Binary;
use psy_tree::{AgentDecl, Point, VarDecl};
use std::alloc::Global;

/// A list of one.
pub fn one<T: Drop>(alloc: Global, item: T) -> Result<Items<T>, Memory>
    ensures { IfOk result (λ items. items ≡ item ∷ []) }
{
    let mut items = Items::new(alloc);
    items.push(item)?;
    Ok(items)
}

/// A list of two.
pub fn two<T: Drop>(alloc: Global, first: T, second: T) -> Result<Items<T>, Memory>
    ensures { IfOk result (λ items. items ≡ first ∷ second ∷ []) }
{
    let mut items = Items::new(alloc);
    items.push(first)?;
    items.push(second)?;
    Ok(items)
}

/// A name of one letter.
pub fn name(alloc: Global, letter: u8) -> Result<Text, Memory>
    ensures { IfOk result (λ name. name ≡ letter ∷ []) }
{
    Text::from_bytes(alloc, &[letter])
}

/// The clock of every tenth tick.
pub fn tenth() -> Clock
    ensures { result ≡ tenth }
{
    Clock {
        period: 10,
        first: 0,
    }
}

/// The variable `v` of an agent, 0 at first.
pub fn variable(alloc: Global, owner: u32) -> Result<VarDecl, Memory>
    ensures { IfOk result (λ v. v ≡ variable_of owner) }
{
    Ok(VarDecl {
        name: name(alloc, b'v')?,
        owner: Some(owner),
        clock: 0,
        init: 0,
        depth: 1,
    })
}

/// The agent of the first processor whose name is this letter. Its actions last from date to date of the clock, and may take so many cycles.
pub fn agent(alloc: Global, letter: u8, budget: u32) -> Result<AgentDecl, Memory>
    ensures { IfOk result (λ a. a ≡ agent_of letter budget) }
{
    let head = Point {
        count: 0,
        clock: 0,
        budget,
    };
    let advance = Point {
        count: 1,
        clock: 0,
        budget,
    };
    Ok(AgentDecl {
        name: name(alloc, letter)?,
        clock: 0,
        processor: 0,
        budget,
        slots: Items::new(alloc),
        points: Items::from_slice(alloc, &[head, advance])?,
        stmts: Items::new(alloc),
    })
}

/// Behind each of its points such an agent comes to its one `advance`.
pub fn onwards(alloc: Global) -> Result<Items<Items<u32>>, Memory>
    ensures { IfOk result (λ lists. lists ≡ onwards) }
{
    two(alloc, one(alloc, 1)?, one(alloc, 1)?)
}

/// The operator that adds.
pub fn add() -> Binary
    ensures { result ≡ Add }
{
    Binary::new(Op2::Add).unwrap()
}
