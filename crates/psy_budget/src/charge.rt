//! What an agent's actions are charged: a cycle for each instruction, and the stalls of a script.
ghost use Rattle.std.specs.Prelude.{ℕ, ◌≡◌, ◌<◌, ◌≤◌, ◌+◌, ◌-◌, ◌^◌, ◌==◌};
ghost use Rattle.psy_budget.specs.declared.charge.Tick.TheVariants as tick;
ghost use Rattle.psy_budget.specs.Charges.{AllGoTo, IsStretch, StallsRise, stalled, tick_of, ticked, after_tick, after_start, after_start_at};
ghost use Rattle.psy_budget.specs.Standing.{AreSplit};

use psy_base::Items;
use std::marker::Model;

/// Cycles that pass before an instruction of an action and do nothing. Actions of the agent, and instructions
/// of an action, are counted from 0.
#[derive(Clone, Copy, Debug, PartialEq, Eq)]
pub struct Stall {
    pub agent: u32,
    pub action: u64,
    pub instr: u64,
    pub cycles: u64,
}

/// What a cycle goes to.
#[derive(Clone, Copy, Debug, PartialEq, Eq)]
pub enum Tick {
    /// The next instruction goes.
    Paid,
    /// A stall before the next instruction.
    Stalled,
    /// None: the budget is spent.
    Spent,
}

/// What an agent's actions are charged. No call takes memory.
#[derive(Drop)]
pub struct Charge {
    stalls: Items<Stall>,
    /// How many stalls are before or at the next instruction, or were.
    passed: usize,
    /// Cycles that are left of the stalls before the next instruction.
    left: u64,
    started: u64,
    budget: u32,
    consumed: u64,
    paid: u64,
}

impl Model for Charge {
    ghost use Rattle.psy_budget.specs.Charges.{Charged};
    ghost use Rattle.psy_budget.specs.Standing.{IsCharge, charged};

    ghost Value = { Charged };

    ghost view = { charged };

    ghost invariant = { IsCharge };
}

/// How many stalls are those of earlier actions.
fn earlier(stalls: &[Stall], action: u64) -> usize
    requires { StallsRise stalls.now }
    ensures { AreSplit stalls.now result action 0 }
{
    stalls.partition_point(|stall| stall.action < action)
}

/// The stall before an instruction, where there is one.
#[derive(Clone, Copy, Debug)]
struct Next {
    /// How many stalls stand up to it.
    passed: usize,
    /// Its cycles; 0 where there is none.
    cycles: u64,
}

/// The stall before instruction `instr` of an action, given how many stalls stand below that instruction.
fn next_stall(stalls: &[Stall], place: usize, action: u64, instr: u64) -> Next
    requires rise { StallsRise stalls.now }
    requires split { AreSplit stalls.now place action instr }
    ensures split { AreSplit stalls.now result.passed action (instr + 1) }
    ensures cycles { stalled stalls.now action (instr + 1) ≡ stalled stalls.now action instr + result.cycles }
{
    if place < stalls.len() && stalls[place].action == action && stalls[place].instr == instr {
        return Next {
            passed: place + 1,
            cycles: stalls[place].cycles,
        };
    }
    Next {
        passed: place,
        cycles: 0,
    }
}

/// How many stalls stand below an instruction of an action, given how many stand below that one or an earlier one.
fn passed_below(stalls: &[Stall], place: usize, action: u64, instr: u64) -> usize
    requires rise { StallsRise stalls.now }
    requires below { (n : ℕ) × (n ≤ instr) × AreSplit stalls.now place action n }
    ensures { AreSplit stalls.now result action instr }
{
    let mut place = place;
    'stalls: while place < stalls.len()
        && stalls[place].action == action
        && stalls[place].instr < instr
    {
        place += 1;
    }
    place
}

/// How many instructions, up to `most`, come next with no cycles of a stall between them, given how many are paid and how
/// many stalls stand up to the next one.
fn unstalled(stalls: &[Stall], place: usize, action: u64, paid: u64, most: u64) -> u64
    requires rise { StallsRise stalls.now }
    requires split { AreSplit stalls.now place action (paid + 1) }
    ensures within { result ≤ most }
    ensures same { (k : ℕ) → k < result → stalled stalls.now action (paid + k + 1) ≡ stalled stalls.now action (paid + 1) }
    ensures next { result < most → stalled stalls.now action (paid + 1) < stalled stalls.now action (paid + result + 1) }
{
    let mut place = place;
    'stalls: while place < stalls.len() && stalls[place].action == action {
        if stalls[place].cycles > 0 {
            return most.min(stalls[place].instr - paid);
        }
        place += 1;
    }
    most
}

impl Charge {
    /// The charge of an agent with these stalls, none of whose actions has started.
    pub fn new(stalls: Items<Stall>) -> Charge
        requires { StallsRise stalls }
        ensures { result ≡ record { stalls = stalls; started = 0; budget = 0; consumed = 0; paid = 0 } }
    {
        Charge {
            stalls,
            passed: 0,
            left: 0,
            started: 0,
            budget: 0,
            consumed: 0,
            paid: 0,
        }
    }

    /// The next action begins, with its budget in cycles; the first one has number 0.
    pub fn start(&mut self, budget: u32)
        ensures { self.new ≡ after_start self.old budget }
    {
        self.start_at(self.started.min(u64::MAX - 1), budget);
    }

    /// The action of this number begins, with its budget in cycles: at once what as many starts and one more leave where none was before.
    pub fn start_at(&mut self, number: u64, budget: u32)
        requires { number < 2 ^ 64 - 1 }
        ensures { self.new ≡ after_start_at self.old number budget }
    {
        self.started = number + 1;
        self.budget = budget;
        self.consumed = 0;
        self.paid = 0;
        let stalls = self.stalls.as_slice();
        let next = next_stall(stalls, earlier(stalls, number), number, 0);
        self.passed = next.passed;
        self.left = next.cycles;
    }

    /// What the next cycle of the action goes to; `Spent` exactly where its cycles equal the budget, and then nothing
    /// changes.
    pub fn tick(&mut self) -> Tick
        ensures answer { result ≡ tick_of self.old }
        ensures charge { self.new ≡ after_tick self.old result }
    {
        if self.spent() {
            return Tick::Spent;
        }
        self.consumed += 1;
        if self.left > 0 {
            self.left -= 1;
            return Tick::Stalled;
        }
        self.paid += 1;
        let next = next_stall(
            self.stalls.as_slice(),
            self.passed,
            self.started - 1,
            self.paid,
        );
        self.passed = next.passed;
        self.left = next.cycles;
        Tick::Paid
    }

    /// The stalled cycles that come next, up to `most`, at once: how many they are, and what as many ticks leave.
    pub fn skip(&mut self, most: u64) -> u64
        ensures count { IsStretch self.old tick.Stalled most result }
        ensures charge { self.new ≡ ticked self.old result }
    {
        let granted = u64::from(self.budget) - self.consumed;
        let cycles = most.min(self.left).min(granted);
        self.consumed += cycles;
        self.left -= cycles;
        cycles
    }

    /// How many cycles come next, up to `most`, that each pay an instruction.
    pub fn free(&self, most: u64) -> u64
        ensures { IsStretch self.now tick.Paid most result }
    {
        if self.left > 0 || self.spent() {
            return 0;
        }
        let granted = most.min(u64::from(self.budget) - self.consumed);
        unstalled(
            self.stalls.as_slice(),
            self.passed,
            self.started - 1,
            self.paid,
            granted,
        )
    }

    /// The next cycles, each of which pays an instruction, at once: what as many ticks leave.
    pub fn pay(&mut self, cycles: u64)
        requires { AllGoTo self.old tick.Paid cycles }
        ensures { self.new ≡ ticked self.old cycles }
    {
        if cycles == 0 {
            return;
        }
        self.consumed += cycles;
        self.paid += cycles;
        let stalls = self.stalls.as_slice();
        let action = self.started - 1;
        let below = passed_below(stalls, self.passed, action, self.paid);
        let next = next_stall(stalls, below, action, self.paid);
        self.passed = next.passed;
        self.left = next.cycles;
    }

    /// Whether the budget is spent.
    pub fn spent(&self) -> bool
        ensures { result ≡ (self.now.consumed == self.now.budget) }
    {
        self.consumed == u64::from(self.budget)
    }
}
