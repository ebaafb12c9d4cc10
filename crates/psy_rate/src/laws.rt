//! Laws of the definitions, each the contract of a function that does nothing.

ghost use Rattle.std.specs.Prelude.{◌≡◌, ◌⊎◌, ℕ, ◌+◌, ◌*◌, ◌≤◌, List, All, length};
ghost use Rattle.psy_base.specs.declared.edge.Edge.{Edge};
ghost use Rattle.psy_base.specs.declared.limits.TheConstants.{EDGES};
ghost use Rattle.psy_meaning.specs.Demand.{IsDemand, edges_on};
ghost use Rattle.psy_rate.specs.declared.line.Rate.{Rate};
ghost use Rattle.psy_rate.specs.Lines.{IsRateOf, AreRates, AreAll, lines_on};
ghost use Rattle.psy_rate.specs.Horizons.{rate_of, intercept_of, Covers, IsHorizonOf, IsHorizon, AreDrawn, AreFeasible};
ghost use Rattle.psy_window.specs.Windows.{IsEdge};

use crate::line::SCALE;
use psy_window::laws::greatest;

/// The demand over each length is at most the sum of the lines. So where the supply suffices over each length up to the
/// horizon, it suffices over every length.
pub fn always()
    ensures line { (graphs : List (List Edge)) (lines : List Rate) (length demand : ℕ) → AreRates graphs lines → IsDemand graphs length demand
        → demand * SCALE ≤ rate_of lines * length + intercept_of lines }
    ensures every { (groups : List (List (List Edge))) (lines : List (List Rate)) (quantum horizon : ℕ) → AreDrawn groups → AreAll groups lines
        → IsHorizon quantum lines horizon → AreFeasible groups quantum horizon → (top : ℕ) → AreFeasible groups quantum top }
{
    greatest();
}

/// The graph of an agent has one line, and so have the graphs of a processor's agents.
pub fn rates()
    ensures some { (graph : List Edge) (nodes : ℕ) → All (IsEdge nodes) graph → length graph ≤ EDGES → (line : Rate) × IsRateOf graph line }
    ensures one { (graph : List Edge) (line other : Rate) → IsRateOf graph line → IsRateOf graph other → line ≡ other }
    ensures on { (homes : List ℕ) (processor : ℕ) (graphs : List (List Edge)) (lines : List Rate) → AreRates graphs lines
        → AreRates (edges_on homes processor graphs) (lines_on homes processor lines) }
{}

/// The lines of a group have one horizon, or none; and groups have one, where each of them has, or none.
pub fn horizons()
    ensures some { (quantum : ℕ) (lines : List Rate) → ((length : ℕ) × IsHorizonOf quantum lines length)
        ⊎ ((length : ℕ) → Covers quantum lines length → ⊥) }
    ensures one { (quantum : ℕ) (lines : List Rate) (length other : ℕ) → IsHorizonOf quantum lines length → IsHorizonOf quantum lines other
        → length ≡ other }
    ensures groups { (quantum : ℕ) (groups : List (List Rate)) → ((length : ℕ) × IsHorizon quantum groups length)
        ⊎ ((length : ℕ) → IsHorizon quantum groups length → ⊥) }
    ensures only { (quantum : ℕ) (groups : List (List Rate)) (length other : ℕ) → IsHorizon quantum groups length → IsHorizon quantum groups other
        → length ≡ other }
{}
