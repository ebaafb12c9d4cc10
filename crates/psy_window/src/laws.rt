//! Laws of the definitions, each the contract of a function that does nothing.

ghost use Rattle.std.specs.Prelude.{◌≡◌, ℕ, List, All};
ghost use Rattle.psy_base.specs.declared.edge.Edge.{Edge};
ghost use Rattle.psy_base.specs.Paths.{IsGreatestWeight};
ghost use Rattle.psy_window.specs.declared.span.Span.{Span};
ghost use Rattle.psy_window.specs.Windows.{IsEdge, Fits};

/// The paths of a graph that fit a length have one greatest weight.
pub fn greatest()
    ensures some { (graph : List Edge) (nodes : ℕ) (span : Span) (within : ℕ) → All (IsEdge nodes) graph → (n : ℕ)
        × IsGreatestWeight graph (Fits span within) n }
    ensures one { (graph : List Edge) (span : Span) (within n m : ℕ) → IsGreatestWeight graph (Fits span within) n
        → IsGreatestWeight graph (Fits span within) m → n ≡ m }
{}
