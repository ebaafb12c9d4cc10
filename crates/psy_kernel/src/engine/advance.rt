//! What becomes of an action with a cycle.
ghost use Rattle.std.specs.Prelude.{◌≡◌, ◌==◌, if◌then◌else◌};
ghost use Rattle.psy_kernel.specs.declared.engine.advance.Gone.TheVariants as gone;

use psy_arith::Trap;
use psy_budget::Charge;

/// What became of an action with a cycle.
#[derive(Clone, Copy, Debug, PartialEq, Eq)]
pub enum Gone {
    /// It goes on.
    Going,
    /// It reached this point.
    Ended(u32),
    Trapped(Trap),
    /// Its budget is spent, and it isn't finished.
    Spent,
}

/// An action that isn't over goes on until its budget is spent.
pub(super) fn going(charge: &Charge) -> Gone
    ensures { result ≡ (if charge.now.consumed == charge.now.budget then gone.Spent else gone.Going) }
{
    if charge.spent() {
        Gone::Spent
    } else {
        Gone::Going
    }
}
