//! A text is read in one way.
ghost use Rattle.std.specs.Prelude.{◌≡◌, ◌⊎◌, List, ℕ};
ghost use Rattle.psy_tree.specs.declared.token.Token.{Token};
ghost use Rattle.psy_tree.specs.declared.faults.LexKind.{LexKind};
ghost use Rattle.psy_tree.specs.Faults.{FirstFault};
ghost use Rattle.psy_tree.specs.Tokens.{TokensOf};

/// A text has tokens or a first fault, one of them and not both.
pub fn one_reading()
    ensures either { (text : List ℕ) → ((tokens : List Token) × TokensOf text tokens) ⊎ ((kind : LexKind) × (place : ℕ) × FirstFault text kind place) }
    ensures tokens { (text : List ℕ) (some others : List Token) → TokensOf text some → TokensOf text others → some ≡ others }
    ensures fault { (text : List ℕ) (kind other : LexKind) (place elsewhere : ℕ) → FirstFault text kind place → FirstFault text other elsewhere
        → (kind ≡ other) × (place ≡ elsewhere) }
    ensures not_both { (text : List ℕ) (tokens : List Token) (kind : LexKind) (place : ℕ) → TokensOf text tokens → FirstFault text kind place → ⊥ }
{}
