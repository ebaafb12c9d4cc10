//! The kernel of a run that goes on from a state.
ghost use Rattle.std.specs.Prelude.{◌≡◌, ◌<◌, IfOk, Some};
ghost use Rattle.std.specs.List.{AllPairs};
ghost use Rattle.psy_dates.specs.Beginnings.{behind};
ghost use Rattle.psy_dates.specs.Plans.{IsPlan, IsSoundFor};
ghost use Rattle.psy_history.specs.Compiled.{AreInputs};
ghost use Rattle.psy_history.specs.Scripts.{IsScript, stalls_of};
ghost use Rattle.psy_kernel.specs.Kernels.{AreTurned};
ghost use Rattle.psy_kernel.specs.Progress.{began};
ghost use Rattle.psy_kernel.specs.Resuming.{HasShapeOf};

use super::Kernel;
use super::boot::{declared_of, turned_first};
use super::round::turned_by;
use crate::engine::{Engine, cycles_before};
use psy_base::Memory;
use psy_dates::{Opening, Plan};
use psy_history::{Inputs, Round, Script, processors_of};
use std::alloc::Global;

/// How many rounds have come into force by a cycle.
fn turned_at(rounds: &[Round], cycle: u64) -> usize
    requires { AllPairs (λ r q. r.cycle < q.cycle) rounds.now }
    ensures { AreTurned rounds.now result cycle }
{
    turned_by(rounds, turned_first(rounds), cycle)
}

impl Kernel {
    /// A kernel behind the date of a state. All the memory that a run takes is taken here; the only error is want of it.
    pub fn open(
        alloc: Global,
        plan: Plan,
        opening: Opening,
        inputs: Inputs,
        script: Script,
    ) -> Result<Kernel, Memory>
        requires plan { IsPlan plan }
        requires inputs { AreInputs plan.unit inputs.lists }
        requires script { IsScript plan.unit script }
        requires shape { HasShapeOf plan opening }
        requires sound { IsSoundFor plan (behind plan opening) inputs.lists (stalls_of script) }
        ensures { IfOk result (λ kernel. kernel ≡ began plan inputs.lists script (Some opening)) }
    {
        let declared = declared_of(alloc, processors_of(&plan.unit))?;
        let cycles = cycles_before(&plan, &opening);
        let turned = turned_at(script.rounds.as_slice(), cycles);
        let engine = Engine::open(alloc, plan, opening, inputs, script)?;
        Ok(Kernel {
            engine,
            cycles,
            units: 0,
            declared,
            turned,
            last: None,
        })
    }
}
