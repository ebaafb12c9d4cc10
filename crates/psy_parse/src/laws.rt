//! Tokens have one tree at most, and where they have none, one token at fault.
ghost use Rattle.std.specs.Prelude.{◌≡◌, ◌⊎◌, ℕ, List};
ghost use Rattle.psy_tree.specs.declared.raw.Raw.{Raw};
ghost use Rattle.psy_tree.specs.declared.token.Token.{Token};
ghost use Rattle.psy_tree.specs.Grammar.{Spells};
ghost use Rattle.psy_tree.specs.Deep.{Deep, Shallow};
ghost use Rattle.psy_parse.specs.Fault.{NoTree, AtFault};

/// Tokens have no tree, or exactly one; they have a token at fault exactly where they have no
/// tree, and no other; they are nested too deep at no token, or at exactly one.
pub fn one_tree()
    ensures some { (tokens : List Token) → ((raw : Raw) × Spells raw tokens) ⊎ NoTree tokens }
    ensures one { (tokens : List Token) (raw other : Raw) → Spells raw tokens → Spells other tokens → raw ≡ other }
    ensures fault { (tokens : List Token) → NoTree tokens → (n : ℕ) × AtFault tokens n }
    ensures one_fault { (tokens : List Token) (n other : ℕ) → AtFault tokens n → AtFault tokens other → n ≡ other }
    ensures no_fault { (tokens : List Token) (n : ℕ) → AtFault tokens n → NoTree tokens }
    ensures depth { (tokens : List Token) → ((n : ℕ) × Deep tokens n) ⊎ Shallow tokens }
    ensures deep { (tokens : List Token) (n other : ℕ) → Deep tokens n → Deep tokens other → n ≡ other }
    ensures not_both { (tokens : List Token) (n : ℕ) → Deep tokens n → Shallow tokens → ⊥ }
{}
