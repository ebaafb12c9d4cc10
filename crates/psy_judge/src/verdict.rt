//! Code of any origin, judged owner by owner, functions first.

ghost use Rattle.std.specs.Prelude.{◌≡◌, ◌≢◌, ◌+◌, ◌<◌, ℕ, length, replicate, IfOk, IsOk, OnOk, Err, None, Some};
ghost use Rattle.psy_flow.specs.Owners.{Agent, Function};
ghost use Rattle.psy_flow.specs.Verified.{IsLeastFault, IsVerified, Keeps};
ghost use Rattle.psy_judge.specs.Ending.{AreEnds};
ghost use Rattle.psy_judge.specs.Judged.{IsLeast};
ghost use Rattle.psy_judge.specs.Judging.{AreNeeds, IsDone, IsSized, KeepsFor, KeptBy};
ghost use Rattle.psy_judge.specs.declared.heights.Top.TheVariants as top;
ghost use Rattle.psy_judge.specs.Owned.{IsReady};
ghost use Rattle.psy_judge.specs.declared.verdict.VerifyFault.TheVariants as verify_fault;

use crate::ends::ending;
use crate::fault::{Fault, lesser};
use crate::heights::{Top, clear};
use crate::needs::{Need, need_of};
use crate::owned::{explore, fault_of_owner, take_all};
use crate::walked::no_marks;
use crate::whose::Whose;
use psy_base::{Items, Memory};
use psy_code::Code;
use psy_lists::push;
use psy_tree::Unit;
use std::alloc::Global;

/// Why code isn't verified.
#[derive(Clone, Copy, Debug, PartialEq, Eq)]
pub enum VerifyFault {
    /// The least fault by place, then number: that of a rule, from 1 to 7, and a place in the code or where a point or a function begins.
    Fault { number: u32, place: u32 },
    /// Want of memory.
    Memory,
}

impl From<Memory> for VerifyFault {
    ghost use Rattle.std.specs.Prelude.{◌≡◌};
    ghost use Rattle.psy_judge.specs.declared.verdict.VerifyFault.TheVariants.{Memory};

    ghost from_gives = { λ _ e. e ≡ Memory };

    fn from(_: Memory) -> VerifyFault {
        VerifyFault::Memory
    }
}

// ---- one owner

// Judges a function, and finds what it needs.
fn judge_function(
    alloc: Global,
    unit: &Unit,
    code: &Code,
    number: usize,
    ends: &[bool],
    marks: &mut Items<bool>,
    taken: &mut Items<bool>,
    row: &mut Items<Top>,
    needs: &mut Items<Option<Need>>,
) -> Result<Option<Fault>, Memory>
    requires sized { IsSized code.now }
    requires number { number < length code.now.functions }
    requires ends { AreEnds code.now.instrs ends.now }
    requires ready { IsReady code.now (IsDone number 0) marks.old taken.old row.old }
    requires needs { AreNeeds code.now number needs.old }
    ensures ready { OnOk result (IsReady code.now (IsDone (number + 1) 0) marks.new taken.new row.new) }
    ensures needs { OnOk result (AreNeeds code.now (number + 1) needs.new) }
    ensures least { IfOk result (IsLeast (KeepsFor unit.now code.now (IsDone number 0) (Function number))) }
{
    let whose = Whose::Function(number);
    let starts = [code.functions.as_slice()[number].entry];
    let places = explore(alloc, code, whose, &starts, marks, row)?;
    let fault = fault_of_owner(
        unit,
        code,
        whose,
        &starts,
        places.as_slice(),
        row.as_slice(),
        taken.as_slice(),
        needs,
        ends,
    );
    let need = need_of(code, number, needs, places.as_slice(), row.as_slice());
    push(needs, need)?;
    take_all(code, places.as_slice(), taken);
    clear(code, places.as_slice(), row);
    Ok(fault)
}

// Judges an agent.
fn judge_agent(
    alloc: Global,
    unit: &Unit,
    code: &Code,
    number: usize,
    ends: &[bool],
    marks: &mut Items<bool>,
    taken: &mut Items<bool>,
    row: &mut Items<Top>,
    needs: &Items<Option<Need>>,
) -> Result<Option<Fault>, Memory>
    requires sized { IsSized code.now }
    requires number { number < length code.now.agents }
    requires ends { AreEnds code.now.instrs ends.now }
    requires ready { IsReady code.now (IsDone (length code.now.functions) number) marks.old taken.old row.old }
    requires needs { AreNeeds code.now (length code.now.functions) needs.now }
    ensures ready { OnOk result (IsReady code.now (IsDone (length code.now.functions) (number + 1)) marks.new taken.new row.new) }
    ensures least { IfOk result (IsLeast (KeepsFor unit.now code.now (IsDone (length code.now.functions) number) (Agent number))) }
{
    let whose = Whose::Agent(number);
    let starts = code.agents.as_slice()[number].points.as_slice();
    let places = explore(alloc, code, whose, starts, marks, row)?;
    let fault = fault_of_owner(
        unit,
        code,
        whose,
        starts,
        places.as_slice(),
        row.as_slice(),
        taken.as_slice(),
        needs,
        ends,
    );
    take_all(code, places.as_slice(), taken);
    clear(code, places.as_slice(), row);
    Ok(fault)
}

// ---- all owners

// Judges all functions, and finds what they need.
fn judge_functions(
    alloc: Global,
    unit: &Unit,
    code: &Code,
    ends: &[bool],
    marks: &mut Items<bool>,
    taken: &mut Items<bool>,
    row: &mut Items<Top>,
    needs: &mut Items<Option<Need>>,
) -> Result<Option<Fault>, Memory>
    requires sized { IsSized code.now }
    requires ends { AreEnds code.now.instrs ends.now }
    requires ready { IsReady code.now (IsDone 0 0) marks.old taken.old row.old }
    requires needs { AreNeeds code.now 0 needs.old }
    ensures ready { OnOk result (IsReady code.now (IsDone (length code.now.functions) 0) marks.new taken.new row.new) }
    ensures needs { OnOk result (AreNeeds code.now (length code.now.functions) needs.new) }
    ensures least { IfOk result (IsLeast (KeptBy unit.now code.now (IsDone (length code.now.functions) 0))) }
{
    let mut least = None;
    'functions: for number in 0..code.functions.len() {
        let fault = judge_function(alloc, unit, code, number, ends, marks, taken, row, needs)?;
        least = lesser(least, fault);
    }
    Ok(least)
}

// Judges all agents behind the functions, of which the least fault is known.
fn judge_agents(
    alloc: Global,
    unit: &Unit,
    code: &Code,
    ends: &[bool],
    marks: &mut Items<bool>,
    taken: &mut Items<bool>,
    row: &mut Items<Top>,
    needs: &Items<Option<Need>>,
    first: Option<Fault>,
) -> Result<Option<Fault>, Memory>
    requires sized { IsSized code.now }
    requires ends { AreEnds code.now.instrs ends.now }
    requires ready { IsReady code.now (IsDone (length code.now.functions) 0) marks.old taken.old row.old }
    requires needs { AreNeeds code.now (length code.now.functions) needs.now }
    requires first { IsLeast (KeptBy unit.now code.now (IsDone (length code.now.functions) 0)) first }
    ensures least { IfOk result (IsLeast (KeptBy unit.now code.now (IsDone (length code.now.functions) (length code.now.agents)))) }
{
    let mut least = first;
    'agents: for number in 0..code.agents.len() {
        let fault = judge_agent(alloc, unit, code, number, ends, marks, taken, row, needs)?;
        least = lesser(least, fault);
    }
    Ok(least)
}

// A row without heights.
fn no_heights(alloc: Global, count: usize) -> Result<Items<Top>, Memory>
    ensures { IfOk result (λ row. row ≡ replicate count top.Nothing) }
{
    let mut row = Items::new(alloc);
    for _ in 0..count {
        row.push(Top::Nothing)?;
    }
    Ok(row)
}

// The least fault of code, if any.
fn least_fault(alloc: Global, unit: &Unit, code: &Code) -> Result<Option<Fault>, Memory>
    requires sized { IsSized code.now }
    ensures { IfOk result (IsLeast (Keeps unit.now code.now)) }
{
    let count = code.instrs.len();
    let ends = ending(alloc, code.instrs.as_slice())?;
    let mut marks = no_marks(alloc, count)?;
    let mut taken = no_marks(alloc, count)?;
    let mut row = no_heights(alloc, count)?;
    let mut needs = Items::new(alloc);
    let first = judge_functions(
        alloc,
        unit,
        code,
        ends.as_slice(),
        &mut marks,
        &mut taken,
        &mut row,
        &mut needs,
    )?;
    judge_agents(
        alloc,
        unit,
        code,
        ends.as_slice(),
        &mut marks,
        &mut taken,
        &mut row,
        &needs,
        first,
    )
}

fn answer(fault: Option<Fault>) -> Result<(), VerifyFault>
    ensures ok { IsOk result → fault ≡ None }
    ensures err { (number place : ℕ) → result ≡ Err (verify_fault.Fault number place) → fault ≡ Some (record { number = number; place = place }) }
{
    match fault {
        None => Ok(()),
        Some(fault) => Err(VerifyFault::Fault {
            number: fault.number,
            place: fault.place,
        }),
    }
}

/// Judges code of any origin, for the variables, streams and clocks of a unit: Ok exactly where it is verified, and else the least fault by
/// place, then number. The only other error is want of memory.
pub fn judge(alloc: Global, unit: &Unit, code: &Code) -> Result<(), VerifyFault>
    requires sized { IsSized code.now }
    ensures verified { IsOk result → IsVerified unit.now code.now }
    ensures fault { (number place : ℕ) → result ≡ Err (verify_fault.Fault number place) → IsLeastFault unit.now code.now number place }
    ensures only { IsVerified unit.now code.now → (number place : ℕ) → result ≢ Err (verify_fault.Fault number place) }
{
    let fault = least_fault(alloc, unit, code)?;
    answer(fault)
}
