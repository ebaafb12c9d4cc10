//! What a unit of a cycle adds: a cycle of the action that got it, and what that action looked at.
ghost use Rattle.std.specs.Prelude.{◌≡◌, ◌⊎◌, ℕ, ◌^◌, ◌<◌, IfSome, None, OnOk, get_or};
ghost use Rattle.psy_collect.specs.Collected.{IsRunning};
ghost use Rattle.psy_collect.specs.Keeping.{look_of, looked_by, turned, turned_by};
ghost use Rattle.psy_history.specs.Processors.{processor_at};
ghost use Rattle.psy_kernel.specs.declared.stage.Stage.TheVariants.{CycleDue, UnitDue};
ghost use Rattle.psy_kernel.specs.Progress.{after_unit, next_processor, stage_of};

use crate::kept::Kept;
use crate::run::until_of;
use crate::stretch::{doing, give};
use psy_audit::Look;
use psy_base::Memory;
use psy_history::laws::{fitting, on_time, one_of_them, regular};
use psy_kernel::laws::units;
use psy_kernel::{Kernel, Seen};
use psy_tree::Unit;

/// Does the unit that is due, and keeps what it was.
pub fn keep_unit(kernel: &mut Kernel, kept: &mut Kept, cycle: u64) -> Result<(), Memory>
    requires due { (stage_of kernel.old ≡ CycleDue cycle) ⊎ (stage_of kernel.old ≡ UnitDue cycle (next_processor kernel.old)) }
    requires cycle { cycle ≡ kernel.old.cycles }
    requires running { IsRunning kernel.old kept.old }
    ensures state { kernel.new ≡ after_unit kernel.old }
    ensures running { OnOk result (IsRunning kernel.new kept.new) }
{
    units();
    fitting();
    regular();
    on_time();
    one_of_them();
    let _until = until_of(kernel.plan());
    kernel.unit();
    let ran = kernel.ran();
    let seen = kernel.seen();
    keep_turn(kept, &kernel.plan().unit, cycle, ran, seen)?;
    Ok(())
}

// The processor of an agent.
fn processor_of(unit: &Unit, agent: u32) -> u32
    ensures { result ≡ processor_at unit.now agent }
{
    match unit.agents.get(agent as usize) {
        Some(decl) => decl.processor,
        None => 0,
    }
}

// Keeps a cycle that went to an agent's last action, where it did, and what that looked at in it.
fn keep_turn(
    kept: &mut Kept,
    unit: &Unit,
    cycle: u64,
    ran: Option<u32>,
    seen: Option<Seen>,
) -> Result<(), Memory>
    requires early { cycle < 2 ^ 63 }
    requires few { (agent : ℕ) → IfSome (get_or kept.old.doing agent None) (λ act. act.work < 2 ^ 63) }
    ensures { OnOk result (kept.new ≡ turned_by unit.now cycle ran seen kept.old) }
{
    match ran {
        Some(agent) => keep_given(kept, processor_of(unit, agent), cycle, agent, seen),
        None => Ok(()),
    }
}

fn keep_given(
    kept: &mut Kept,
    processor: u32,
    cycle: u64,
    agent: u32,
    seen: Option<Seen>,
) -> Result<(), Memory>
    requires early { cycle < 2 ^ 63 }
    requires few { IfSome (get_or kept.old.doing agent None) (λ act. act.work < 2 ^ 63) }
    ensures { OnOk result (kept.new ≡ turned processor cycle agent seen kept.old) }
{
    give(kept, processor, cycle, agent)?;
    match seen {
        Some(seen) => keep_look(kept, cycle, agent, seen),
        None => Ok(()),
    }
}

// Keeps a look of an agent's action.
fn keep_look(kept: &mut Kept, cycle: u64, agent: u32, seen: Seen) -> Result<(), Memory>
    ensures { OnOk result (kept.new ≡ looked_by cycle agent (get_or kept.old.doing agent None) seen kept.old) }
{
    match doing(&kept.doing, agent) {
        Some(act) => Ok(kept.looks.push(look_of(act.number, cycle, agent, seen))?),
        None => Ok(()),
    }
}

fn look_of(number: u64, cycle: u64, agent: u32, seen: Seen) -> Look
    ensures { result ≡ look_of number cycle agent seen }
{
    Look {
        agent,
        number,
        cycle,
        variable: seen.variable,
        back: u64::from(seen.back),
        slot: u64::from(seen.slot),
        value: i64::from(seen.value),
    }
}
