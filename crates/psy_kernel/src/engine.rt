//! The engine of a kernel: the state of a run, in which each processor goes by itself from a date to the next.

mod advance;
mod ahead;
mod boot;
mod coming;
mod cycle;
mod date;
mod freeze;
mod idle;
mod lines;
mod open;
mod stretch;
mod summary;

pub(crate) use open::cycles_before;
use psy_budget::Charge;
use psy_dates::{Opening, Plan, Shared};
use psy_history::laws::one_of_them;
use psy_history::{Round, Script};
use psy_machine::Machine;
use psy_ready::Ready;
use std::marker::Model;

/// How many of an agent's actions that are due by the last date are finished or stopped, and the least slack among them, in cycles.
#[derive(Clone, Copy, Debug)]
struct Figure {
    count: u64,
    slack: Option<u64>,
}

/// What an agent has of its own: its machine, the charge of its action, and its figure.
#[derive(Drop)]
struct Runner {
    machine: Machine,
    charge: Charge,
    figure: Figure,
}

/// A processor: how many of its cycles were done, which of its agents wait for it, and which of them gets its next cycle.
#[derive(Drop)]
struct Server {
    cycles: u64,
    /// By agent, its deadline where it is one of this processor's and waits.
    ready: Ready,
    /// How many of the script's orders have come into force by its next cycle.
    passed: usize,
    /// The agent that gets its next cycle, unless who waits or the order has changed since it was chosen.
    chosen: Option<u32>,
    stale: bool,
}

/// The run of a plan, each processor of which goes by itself between two dates: what its agents do there depends on nothing that others do.
/// Contracts see how many dates were done, how many cycles of each processor, and how many lines of the last date were given. What it holds
/// stands for the dated history there, from wherever it begins: so its lines and its summary are the history's.
#[derive(Drop)]
pub struct Engine {
    plan: Plan,
    script: Script,
    /// The state behind which the run begins; None where it begins at date 0.
    opening: Option<Opening>,
    shared: Shared,
    /// By agent.
    runners: Vec<Runner>,
    /// By processor.
    servers: Vec<Server>,
    /// By variable, how far back its ring was reached for, and none where it never was.
    reaches: Vec<Option<u32>>,
    /// By stream, the greatest number of messages that it held at a date.
    helds: Vec<u32>,
    /// All agents, in the order of declaration.
    declared: Vec<u32>,
    /// Where the lines of the date done last go on: agents, then variables, then streams, counted through; how many messages of the stream
    /// there were shown; and how many lines were given.
    place: usize,
    shown: u32,
    given: u64,
}

impl Model for Engine {
    ghost use Rattle.std.specs.Coded.{codes};
    ghost use Rattle.psy_tree.specs.contracts.unit.Expr as expr;
    ghost use Rattle.psy_tree.specs.contracts.unit.Stmt as stmt;
    ghost use Rattle.psy_kernel.specs.Engines.{EngineState};

    ghost Value = { EngineState };

    ghost coded = { Prim.hlevel (codes, expr.the_row.coded, stmt.the_row.coded) };

    ghost use Rattle.psy_kernel.specs.Standing.{EngineStands, state_of};

    ghost view = { state_of };

    ghost invariant = { EngineStands };
}

impl Engine {
    ghost use Rattle.std.specs.Prelude.{◌≡◌};
    ghost use Rattle.psy_dates.specs.Standing.{SharedStands};
    ghost use Rattle.psy_history.specs.Compiled.{AreInputs};
    ghost use Rattle.psy_history.specs.Processors.{processors};
    ghost use Rattle.psy_kernel.specs.Engines.{history_of, turns_done};

    /// The last date of the run.
    pub(crate) fn until(&self) -> u32
        ensures { result ≡ self.now.plan.until }
    {
        self.plan.until
    }

    /// Cycles of a tick.
    pub(crate) fn quantum(&self) -> u32
        ensures { result ≡ self.now.plan.unit.quantum }
    {
        self.plan.unit.quantum
    }

    /// How many processors there are.
    pub(crate) fn processors(&self) -> u32
        ensures { result ≡ processors self.now.plan.unit }
    {
        one_of_them();
        self.servers.len() as u32
    }

    /// The plan that is run, with inputs such as it has.
    pub(crate) fn plan(&self) -> &Plan
        ensures plan { result.now ≡ self.now.plan }
        ensures inputs { AreInputs self.now.plan.unit self.now.inputs }
    {
        &self.plan
    }

    /// What the agents share.
    pub(crate) fn shared(&self) -> &Shared
        ensures inputs { result.now.inputs.lists ≡ self.now.inputs }
        ensures stands { SharedStands (history_of self.now) self.now.plan.sizes (turns_done self.now) self.now.dates result.now }
    {
        &self.shared
    }

    /// The rounds of the script.
    pub(crate) fn rounds(&self) -> &[Round]
        ensures { result.now ≡ self.now.script.rounds }
    {
        self.script.rounds.as_slice()
    }
}
