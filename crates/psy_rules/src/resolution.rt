//! A tree judged: the unit that it stands for, or its least fault.
ghost use Rattle.std.specs.Prelude.{◌≡◌, None, length, option_to_list, IfOk, IfErr};
ghost use Rattle.std.specs.List.{flat_map};
ghost use Rattle.psy_tree.specs.Scope.{item_entries};
ghost use Rattle.psy_tree.specs.Rules.{NoFault, sound_clocks};
ghost use Rattle.psy_tree.specs.Stands.{Stands, unit_of, first_passed as first_passed_of};
ghost use Rattle.psy_rules.specs.Tables.{StandsFor};
ghost use Rattle.psy_rules.specs.Numbering.{AreNumbers};
ghost use Rattle.psy_rules.specs.Lowered.{IsProgram};
ghost use Rattle.psy_rules.specs.Cause.{IsCause};
ghost use Rattle.psy_rules.specs.declared.resolution.RuleFault.TheVariants as fault;
ghost use Rattle.psy_tree.specs.declared.unit.Unit.{Unit as Whole};

use crate::counts::first_passed;
use crate::declarations::{Program, agents, clock_names, functions, streams, variables};
use crate::judge::judge;
use crate::names::Names;
use crate::numbers::{Before, numbers};
use crate::slots::item_table;
use psy_base::{Items, Memory};
use psy_clock::Clock;
use psy_tree::{Count, Raw, RuleKind, Unit};
use std::alloc::Global;
use thiserror::Error;

/// Why a tree is no program.
#[derive(Clone, Copy, Debug, PartialEq, Eq, Error)]
pub enum RuleFault {
    /// The least of its faults, by token and then by the kind's number.
    #[error("a name or a rule is at fault at token {token}")]
    Rule { kind: RuleKind, token: u32 },
    /// A count passes its limit, and no rule is broken.
    #[error("too many declarations")]
    Many(Count),
    /// Memory ran out.
    #[error("out of memory")]
    Memory,
}

impl From<Memory> for RuleFault {
    ghost use Rattle.std.specs.Prelude.{◌≡◌};
    ghost use Rattle.psy_rules.specs.declared.resolution.RuleFault.TheVariants as fault;

    ghost from_gives = { λ _ e. e ≡ fault.Memory };

    fn from(_error: Memory) -> RuleFault {
        RuleFault::Memory
    }
}

/// The clocks among the declarations.
fn clocks(alloc: Global, known: &[Option<Clock>]) -> Result<Items<Clock>, Memory>
    ensures { IfOk result (λ v. v ≡ flat_map option_to_list known.now) }
{
    let mut clocks = Items::new(alloc);
    for clock in known {
        if let Some(clock) = clock {
            clocks.push(*clock)?;
        }
    }
    Ok(clocks)
}

/// The declarations of a program without a fault that keeps the limits.
fn program<'a>(raw: &'a Raw, globals: &'a Names, before: &'a [Before]) -> Program<'a>
    requires no_fault { NoFault raw.now }
    requires limits { first_passed_of raw.now ≡ None }
    requires globals { StandsFor globals.now (item_entries 0 raw.now.items) }
    requires numbers { AreNumbers raw.now.items before.now }
    ensures program { IsProgram result }
    ensures items { result.items.now ≡ raw.now.items }
{
    Program {
        items: raw.items.as_slice(),
        globals,
        before,
    }
}

/// The unit of a program, with the sound clocks among its declarations.
fn unit(
    alloc: Global,
    raw: &Raw,
    program: &Program<'_>,
    known: &[Option<Clock>],
) -> Result<Unit, Memory>
    requires program { IsProgram program.now }
    requires items { program.now.items.now ≡ raw.now.items }
    requires clocks { known.now ≡ sound_clocks raw.now.items (length raw.now.items) }
    ensures { IfOk result (λ u. u ≡ unit_of raw.now) }
{
    Ok(Unit {
        quantum: raw.quantum.value,
        clocks: clocks(alloc, known)?,
        clock_names: clock_names(alloc, program.items)?,
        variables: variables(alloc, program)?,
        streams: streams(alloc, program)?,
        functions: functions(alloc, program)?,
        agents: agents(alloc, program)?,
    })
}

/// The unit of a program: its declarations, expressions and statements with numbers in place of names.
/// The errors are the least fault of its names and rules, the first count that passes its limit, and
/// want of memory.
pub fn resolve(alloc: Global, raw: &Raw) -> Result<Unit, RuleFault>
    // A unit is that of the tree, which has no fault and keeps the limits.
    ensures stands { IfOk result (λ unit. Stands unit raw.now) }
    // What is wrong is the least of the faults, or, where there is none, the first count that passes.
    ensures fault { IfErr result (IsCause raw.now) }
    // A program that stands for a unit is refused for want of memory alone.
    ensures all { (unit : Whole) → Stands unit raw.now → IfErr result (λ e. e ≡ fault.Memory) }
{
    let items = raw.items.as_slice();
    let globals = item_table(alloc, items)?;
    let judged = judge(alloc, raw, &globals)?;
    if let Some(fault) = judged.least.fault {
        return Err(RuleFault::Rule {
            kind: fault.kind,
            token: fault.token,
        });
    }
    if let Some(count) = first_passed(items) {
        return Err(RuleFault::Many(count));
    }
    let before = numbers(alloc, items)?;
    let program = program(raw, &globals, before.as_slice());
    Ok(unit(alloc, raw, &program, judged.clocks.as_slice())?)
}
