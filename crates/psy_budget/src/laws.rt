//! Laws of the definitions, each the contract of a function that does nothing.

ghost use Rattle.std.specs.Prelude.{ℕ, ◌≡◌, ◌≢◌, ◌+◌, ◌-◌, ◌^◌, ◌<◌, ◌≤◌, ◌↔◌, List, length};
ghost use Rattle.psy_budget.specs.declared.charge.Tick.TheVariants as tick;
ghost use Rattle.psy_budget.specs.Charges.{AllGoTo, Charged, Pays, action_of, after_start, after_start_at, after_starts, cycle_of, tick_of, ticked};

/// The cycles of an action that has begun, counted from 0: below the budget each pays the instruction whose
/// cycle it is, and goes to a stall where it is no instruction's; from the budget on there is none.
pub fn units()
    ensures paid { (c : Charged) (budget cycle instr : ℕ) → cycle < budget
        → Pays (ticked (after_start c budget) cycle) instr ↔ (cycle ≡ cycle_of c.stalls (action_of (after_start c budget)) instr) }
    ensures stalled { (c : Charged) (budget cycle : ℕ) → cycle < budget
        → (tick_of (ticked (after_start c budget) cycle) ≡ tick.Stalled) ↔ ((instr : ℕ) → cycle ≢ cycle_of c.stalls (action_of (after_start c budget)) instr) }
    ensures spent { (c : Charged) (budget cycle : ℕ) → (tick_of (ticked (after_start c budget) cycle) ≡ tick.Spent) ↔ (budget ≤ cycle) }
{}

/// Where no action has started, the one whose number is how many have begun is begun at once as it is behind them, whatever their budgets were.
pub fn starts()
    ensures { (c : Charged) (budgets : List ℕ) (budget : ℕ) → c.started ≡ 0 → length budgets < 2 ^ 64 - 1
        → after_start (after_starts c budgets) budget ≡ after_start_at c (length budgets) budget }
{}

/// Cycles in a row: those behind others are further ones; paid ones pay an instruction each, and stalled ones none.
pub fn stretches()
    ensures further { (c : Charged) (n more : ℕ) → ticked (ticked c n) more ≡ ticked c (n + more) }
    ensures paid { (c : Charged) (n : ℕ) → AllGoTo c tick.Paid n → (ticked c n).paid ≡ c.paid + n }
    ensures stalled { (c : Charged) (n : ℕ) → AllGoTo c tick.Stalled n → (ticked c n).paid ≡ c.paid }
{}
