//! The kernel before its first date.
ghost use Rattle.std.specs.Prelude.{◌≡◌, ◌<◌, IfOk};
ghost use Rattle.std.specs.List.{AllPairs, range_with_len};
ghost use Rattle.psy_dates.specs.Plans.{IsPlan};
ghost use Rattle.psy_history.specs.Compiled.{AreInputs};
ghost use Rattle.psy_history.specs.Scripts.{IsScript};
ghost use Rattle.psy_kernel.specs.Kernels.{AreTurned};
ghost use Rattle.psy_kernel.specs.Progress.{booted};

use super::Kernel;
use crate::engine::Engine;
use psy_base::Memory;
use psy_dates::Plan;
use psy_history::{Inputs, Round, Script, processors_of};
use std::alloc::Global;

/// So many processors, from the first to the last.
pub(super) fn declared_of(alloc: Global, processors: u32) -> Result<Vec<u32>, Memory>
    ensures { IfOk result (λ declared. declared.items ≡ range_with_len 0 processors) }
{
    let mut declared = Vec::new(alloc);
    for processor in 0..processors {
        declared.push(processor)?;
    }
    Ok(declared)
}

/// How many rounds are in force from cycle 0 on.
pub(super) fn turned_first(rounds: &[Round]) -> usize
    requires { AllPairs (λ r q. r.cycle < q.cycle) rounds.now }
    ensures { AreTurned rounds.now result 0 }
{
    match rounds.first() {
        Some(round) => usize::from(round.cycle == 0),
        None => 0,
    }
}

impl Kernel {
    /// A kernel before date 0. All the memory that a run takes is taken here; the only error is want of it.
    pub fn boot(alloc: Global, plan: Plan, inputs: Inputs, script: Script) -> Result<Kernel, Memory>
        requires plan { IsPlan plan }
        requires inputs { AreInputs plan.unit inputs.lists }
        requires script { IsScript plan.unit script }
        ensures { IfOk result (λ kernel. kernel ≡ booted plan inputs.lists script) }
    {
        let declared = declared_of(alloc, processors_of(&plan.unit))?;
        let turned = turned_first(script.rounds.as_slice());
        let engine = Engine::boot(alloc, plan, inputs, script)?;
        Ok(Kernel {
            engine,
            cycles: 0,
            units: 0,
            declared,
            turned,
            last: None,
        })
    }
}
