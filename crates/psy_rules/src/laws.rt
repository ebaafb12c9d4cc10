//! A tree has one verdict.
ghost use Rattle.std.specs.Prelude.{◌≡◌, ◌⊎◌, ℕ, Some};
ghost use Rattle.psy_tree.specs.declared.raw.Raw.{Raw};
ghost use Rattle.psy_tree.specs.declared.rules.Count.{Count};
ghost use Rattle.psy_tree.specs.declared.rules.RuleKind.{RuleKind};
ghost use Rattle.psy_tree.specs.declared.unit.Unit.{Unit as Whole};
ghost use Rattle.psy_tree.specs.Rules.{LeastFault, NoFault};
ghost use Rattle.psy_tree.specs.Stands.{Stands, first_passed};

/// A tree stands for a unit, or has a least fault, or has none and a count that passes its limit. No two of
/// these hold, and there is one such unit, fault or count.
pub fn one_verdict()
    ensures some { (raw : Raw) → ((unit : Whole) × Stands unit raw)
        ⊎ (((kind : RuleKind) × (token : ℕ) × LeastFault raw kind token) ⊎ ((count : Count) × NoFault raw × (first_passed raw ≡ Some count))) }
    ensures stands { (raw : Raw) (unit other : Whole) → Stands unit raw → Stands other raw → unit ≡ other }
    ensures fault { (raw : Raw) (kind other : RuleKind) (token elsewhere : ℕ) → LeastFault raw kind token → LeastFault raw other elsewhere
        → (kind ≡ other) × (token ≡ elsewhere) }
    ensures count { (raw : Raw) (count other : Count) → first_passed raw ≡ Some count → first_passed raw ≡ Some other → count ≡ other }
    ensures stands_or_fault { (raw : Raw) (unit : Whole) (kind : RuleKind) (token : ℕ) → Stands unit raw → LeastFault raw kind token → ⊥ }
    ensures stands_or_count { (raw : Raw) (unit : Whole) (count : Count) → Stands unit raw → first_passed raw ≡ Some count → ⊥ }
    ensures fault_or_none { (raw : Raw) (kind : RuleKind) (token : ℕ) → LeastFault raw kind token → NoFault raw → ⊥ }
{}
