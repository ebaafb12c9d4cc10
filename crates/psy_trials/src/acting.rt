//! What a machine does with the code of a program's agent, action by action.

ghost use Rattle.std.specs.Prelude.{◌≡◌, ◌<◌, length, IfOk, IfSome, IsTrue};
ghost use Rattle.psy_machine.specs.Stepping.{IsOf};
ghost use Rattle.psy_meaning.specs.Alike.{ActsAlike};
ghost use Rattle.psy_meaning.specs.Units.{IsOfText};
ghost use Rattle.psy_trials.specs.Actions.{IsBehind, IsUnderWay, Owns, Rests, RestsAfter};

use crate::look::{TestLook, look_of};
use crate::texts::unit_of;
use psy_base::Memory;
use psy_code::laws::lasting;
use psy_code::{Code, Look};
use psy_gen::generate;
use psy_machine::{Machine, Step};
use psy_meaning::laws::{keeps, sound};
use psy_tree::Unit;
use std::alloc::{AllocGlobal, Global};
use std::process::Abort;
use std::test::Fail;

/// More instructions than an action of these trials has.
const MOST: u64 = 200;

/// A program, one of its agents, a temporal variable of that agent, and what each of its actions sees: the
/// values of the variables, the newest first, and the messages of the streams.
#[derive(Clone, Copy)]
pub struct Scene<'a> {
    pub text: &'a str,
    pub agent: u32,
    pub variable: u32,
    pub pasts: &'a [&'a [i32]],
    pub messages: &'a [&'a [i32]],
}

/// What an action came to: how many instructions it had, how it ended, the working copy of the scene's
/// variable then, and what served it.
#[derive(Drop)]
pub struct Act {
    pub cost: u64,
    pub end: Step,
    pub copy: i32,
    pub look: TestLook,
}

/// Executes an instruction of an action of the unit.
fn execute(
    _unit: &Unit,
    code: &Code,
    machine: &mut Machine,
    look: &mut TestLook,
) -> Result<Step, Memory>
    requires of { IsOf code.now machine.old }
    requires way { IsUnderWay _unit.now code.now machine.old.agent machine.old.machine (⟦<TestLook as Look>⟧.window look.old).view }
    requires streams { look.old.streams ≡ length _unit.now.streams }
    requires clocks { look.old.clocks ≡ length _unit.now.clocks }
    ensures of { IsOf code.now machine.new }
    ensures agent { machine.new.agent ≡ machine.old.agent }
    ensures streams { look.new.streams ≡ look.old.streams }
    ensures clocks { look.new.clocks ≡ look.old.clocks }
    ensures behind { IfOk result (λ step. IsBehind _unit.now code.now machine.old.agent step machine.new.machine (⟦<TestLook as Look>⟧.window look.new).view) }
{
    look.sends.reserve(1)?;
    lasting();
    Ok(machine.step(code, look))
}

// What the next action of a scene's agent sees. The action goes on from where the machine stands.
fn next_look(
    alloc: Global,
    scene: &Scene,
    unit: &Unit,
    _code: &Code,
    _machine: &Machine,
) -> Result<TestLook, Memory>
    requires text { IsOfText unit.now }
    requires alike { ActsAlike unit.now _code.now }
    requires agent { _machine.now.agent ≡ scene.now.agent }
    requires rests { Rests unit.now _code.now _machine.now.agent _machine.now.machine }
    ensures way { IfOk result (λ look. IsUnderWay unit.now _code.now _machine.now.agent _machine.now.machine (⟦<TestLook as Look>⟧.window look).view) }
    ensures streams { IfOk result (λ look. look.streams ≡ length unit.now.streams) }
    ensures clocks { IfOk result (λ look. look.clocks ≡ length unit.now.clocks) }
{
    sound();
    keeps();
    lasting();
    let look = look_of(alloc, unit, scene.agent, scene.pasts, scene.messages)?;
    Ok(look)
}

// The next action of a scene's agent, unless it has too many instructions.
fn next_act(
    alloc: Global,
    scene: &Scene,
    unit: &Unit,
    code: &Code,
    machine: &mut Machine,
) -> Result<Option<Act>, Memory>
    requires text { IsOfText unit.now }
    requires alike { ActsAlike unit.now code.now }
    requires owned { Owns unit.now scene.now.agent scene.now.variable }
    requires of { IsOf code.now machine.old }
    requires agent { machine.old.agent ≡ scene.now.agent }
    requires rests { Rests unit.now code.now machine.old.agent machine.old.machine }
    ensures of { IsOf code.now machine.new }
    ensures agent { machine.new.agent ≡ machine.old.agent }
    ensures rests { IfOk result (λ act. IfSome act (λ a. RestsAfter unit.now code.now machine.old.agent a.end machine.new.machine)) }
{
    let mut look = next_look(alloc, scene, unit, code, machine)?;
    for executed in 0..MOST {
        match execute(unit, code, machine, &mut look)? {
            Step::Went => {}
            end => {
                return Ok(Some(Act {
                    cost: executed + 1,
                    end,
                    copy: machine.copy(scene.variable),
                    look,
                }));
            }
        }
    }
    Ok(None)
}

// The agent owns the variable.
fn owns(unit: &Unit, agent: u32, variable: u32) -> bool
    ensures { IsTrue result → Owns unit.now agent variable }
{
    match unit.variables.get(variable as usize) {
        Some(variable) => variable.owner == Some(agent),
        None => false,
    }
}

// The machine of an agent that hasn't started.
fn first_machine(alloc: Global, unit: &Unit, code: &Code, agent: u32) -> Result<Machine, Memory>
    requires text { IsOfText unit.now }
    requires alike { ActsAlike unit.now code.now }
    requires known { agent < length unit.now.agents }
    ensures of { IfOk result (IsOf code.now) }
    ensures agent { IfOk result (λ machine. machine.agent ≡ agent) }
    ensures rests { IfOk result (λ machine. Rests unit.now code.now agent machine.machine) }
{
    sound();
    keeps();
    let _agent = &unit.agents.as_slice()[agent as usize];
    let machine = Machine::new(alloc, code, agent)?;
    Ok(machine)
}

// The first actions of a scene's agent, so many of them, or up to one that traps.
fn acts_from(
    alloc: Global,
    scene: &Scene,
    unit: &Unit,
    code: &Code,
    actions: usize,
) -> Result<Vec<Act>, Memory>
    requires text { IsOfText unit.now }
    requires alike { ActsAlike unit.now code.now }
    requires owned { Owns unit.now scene.now.agent scene.now.variable }
    requires known { scene.now.agent < length unit.now.agents }
{
    let mut machine = first_machine(alloc, unit, code, scene.agent)?;
    let mut acts = Vec::new(alloc);
    for _ in 0..actions {
        let Some(act) = next_act(alloc, scene, unit, code, &mut machine)? else {
            return Ok(acts);
        };
        let end = act.end;
        acts.push(act)?;
        match end {
            Step::Ended(_) => {}
            _ => return Ok(acts),
        }
    }
    Ok(acts)
}

/// The first actions of a scene's agent, so many of them, or up to one that traps.
pub fn acts_of(
    rt: &(impl Abort + AllocGlobal),
    scene: &Scene,
    actions: usize,
) -> Result<Vec<Act>, Fail> {
    let unit = unit_of(rt, scene.text)?;
    assert!(rt; (scene.agent as usize) < unit.agents.len(), "no such agent");
    let owned = owns(&unit, scene.agent, scene.variable);
    assert!(rt; owned, "the agent doesn't own the variable");
    let code = generate(rt.alloc(), &unit)?;
    Ok(acts_from(rt.alloc(), scene, &unit, &code, actions)?)
}

/// The agent's actions end so: each after so many instructions, how, and with which working copy of the
/// variable.
pub fn expect_acts(
    rt: &(impl Abort + AllocGlobal),
    scene: &Scene,
    wanted: &[(u64, Step, i32)],
    message: &str,
) -> Result<(), Fail> {
    let acts = acts_of(rt, scene, wanted.len())?;
    assert_eq!(rt; acts.len(), wanted.len(), "actions of {message}");
    for (number, (act, (cost, end, copy))) in acts.iter().zip(wanted.iter()).enumerate() {
        assert_eq!(rt;
            act.cost,
            *cost,
            "instructions of action {number} of {message}"
        );
        assert_eq!(rt; act.end, *end, "the end of action {number} of {message}");
        assert_eq!(rt;
            act.copy,
            *copy,
            "the copy after action {number} of {message}"
        );
    }
    Ok(())
}
