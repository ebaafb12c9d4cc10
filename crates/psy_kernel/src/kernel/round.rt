//! The round in which the processors do their units of a cycle.
ghost use Rattle.std.specs.Prelude.{◌≡◌, ℕ, ◌<◌, ◌≤◌, length};
ghost use Rattle.std.specs.List.{AllPairs};
ghost use Rattle.psy_history.specs.Processors.{processors};
ghost use Rattle.psy_kernel.specs.Kernels.{AreTurned, round_by};
ghost use Rattle.psy_kernel.specs.Progress.{next_processor};

use super::Kernel;
use psy_history::Round;

/// The round of the last of so many rounds that have come into force, and the first one where none has.
fn round_by<'a>(declared: &'a [u32], rounds: &'a [Round], turned: usize) -> &'a [u32]
    requires { turned ≤ length rounds.now }
    ensures { result.now ≡ round_by declared.now rounds.now turned }
{
    if turned == 0 {
        return declared;
    }
    rounds[turned - 1].processors.as_slice()
}

/// How many rounds have come into force by a cycle, where so many had by one before it.
pub(super) fn turned_by(rounds: &[Round], turned: usize, next: u64) -> usize
    requires rise { AllPairs (λ r q. r.cycle < q.cycle) rounds.now }
    requires in_force { (cycle : ℕ) × (cycle ≤ next) × AreTurned rounds.now turned cycle }
    ensures in_force { AreTurned rounds.now result next }
{
    let mut passed = turned;
    'rounds: while passed < rounds.len() && rounds[passed].cycle <= next {
        passed += 1;
    }
    passed
}

impl Kernel {
    /// The processor whose unit of the cycle that comes next is due.
    pub(super) fn next_processor(&self) -> u32
        ensures next { result ≡ next_processor self.now }
        ensures known { result < processors self.now.plan.unit }
    {
        let round = round_by(self.declared.as_slice(), self.engine.rounds(), self.turned);
        round[self.units as usize]
    }
}
