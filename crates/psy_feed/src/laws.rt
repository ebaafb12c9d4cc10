//! Laws of the definitions, each the contract of a function that does nothing.
ghost use Rattle.std.specs.Prelude.{◌≡◌, ◌≢◌, ◌↔◌, ℕ, None, Some, slice_get};
ghost use Rattle.std.specs.List.{AllPairs, Contains};
ghost use Rattle.psy_history.specs.Feeding.{Feeds, pasts_in};
ghost use Rattle.psy_tree.specs.Parts.{agent_at};
ghost use Rattle.psy_tree.specs.declared.unit.Unit.{Unit as Whole};
ghost use Rattle.psy_tree.specs.declared.unit.VarDecl.{VarDecl};
ghost use Rattle.psy_feed.specs.Arrows.{Arrow, Agent, Input, arrows};

/// There is an arrow from an agent to another exactly where the first feeds the second directly, and one from an input to an agent exactly
/// where the agent's text looks at the input. No arrow is there twice.
pub fn feeding()
    ensures feeds { (unit : Whole) (from to : ℕ) → ((arrow : Arrow) × Contains (arrows unit) arrow × (arrow.from ≡ Agent from) × (arrow.to ≡ to))
        ↔ Feeds unit from to }
    ensures inputs { (unit : Whole) (input to : ℕ) → ((arrow : Arrow) × Contains (arrows unit) arrow × (arrow.from ≡ Input input) × (arrow.to ≡ to))
        ↔ ((v : VarDecl) × (slice_get unit.variables input ≡ Some v) × (v.owner ≡ None) × Contains (pasts_in (agent_at unit to).stmts) input) }
    ensures once { (unit : Whole) → AllPairs (λ a b. a ≢ b) (arrows unit) }
{}
