//! Views of programs that don't run: who feeds whom, the instructions, and the report.
ghost use Rattle.std.specs.Prelude.{◌∷◌, ◌≤◌, [], ℕ, List, IfOk, length};
ghost use Rattle.psy_base.specs.declared.limits.TheConstants.{FILE_BYTES};
ghost use Rattle.psy_meaning.specs.Units.{IsOfText};
ghost use Rattle.psy_plan.specs.Programs.{AreTokensOf, IsProgram};
ghost use Rattle.psy_view.specs.Asked.{Flow, Listing, Report};
ghost use Rattle.psy_view.specs.Views.{ViewOf};

use crate::told::refused;
use crate::view::View;
use psy_base::Memory;
use psy_feed::flow;
use psy_listing::list;
use psy_match::point_lines;
use psy_plan::{Program, Stop, compile, program_of};
use psy_report::report;
use std::alloc::Global;

/// Who feeds whom in the program of a text. The only error is want of memory.
#[tactic(auto, using(crate::specs::Views::flows, crate::specs::Views::no_flow))]
pub fn fed(alloc: Global, name: &str, bytes: &[u8]) -> Result<View, Memory>
    requires { length bytes.now ≤ FILE_BYTES }
    ensures { IfOk result (λ v. ViewOf (Flow name.now) (bytes.now ∷ []) v.status v.text.items) }
{
    match compile(alloc, bytes) {
        Ok(unit) => Ok(View {
            status: 0,
            text: flow(alloc, &unit)?,
        }),
        Err(Stop::Refused(refusal)) => refused(alloc, name, bytes, refusal),
        Err(Stop::Memory) => Err(Memory),
    }
}

/// The instructions of the actions of the program of a text. The only error is want of memory.
#[tactic(auto, using(crate::specs::Views::lists, crate::specs::Views::no_listing))]
pub fn listed(alloc: Global, name: &str, bytes: &[u8]) -> Result<View, Memory>
    requires { length bytes.now ≤ FILE_BYTES }
    ensures { IfOk result (λ v. ViewOf (Listing name.now) (bytes.now ∷ []) v.status v.text.items) }
{
    match program_of(alloc, bytes) {
        Ok(program) => list_of(alloc, bytes, &program),
        Err(Stop::Refused(refusal)) => refused(alloc, name, bytes, refusal),
        Err(Stop::Memory) => Err(Memory),
    }
}

// The same of a program that was read.
#[tactic(auto, using(crate::specs::Views::lists))]
fn list_of(alloc: Global, bytes: &[u8], program: &Program) -> Result<View, Memory>
    requires small { length bytes.now ≤ FILE_BYTES }
    requires unit { IsProgram bytes.now program.now.unit }
    requires text { IsOfText program.now.unit }
    requires tokens { AreTokensOf bytes.now program.now.tokens }
    ensures { (name : List ℕ) → IfOk result (λ v. ViewOf (Listing name) (bytes.now ∷ []) v.status v.text.items) }
{
    let lines = point_lines(alloc, bytes, program.tokens.as_slice())?;
    Ok(View {
        status: 0,
        text: list(alloc, &program.unit, lines.as_slice())?,
    })
}

/// The report on the program of a text, up to a date. The only error is want of memory.
#[tactic(auto, using(crate::specs::Views::reports, crate::specs::Views::no_report, crate::specs::Views::unmeasured))]
pub fn reported(alloc: Global, name: &str, bytes: &[u8], until: u32) -> Result<View, Memory>
    requires { length bytes.now ≤ FILE_BYTES }
    ensures { IfOk result (λ v. ViewOf (Report name.now until) (bytes.now ∷ []) v.status v.text.items) }
{
    let unit = match compile(alloc, bytes) {
        Ok(unit) => unit,
        Err(Stop::Refused(refusal)) => return refused(alloc, name, bytes, refusal),
        Err(Stop::Memory) => return Err(Memory),
    };
    match report(alloc, &unit, until) {
        Ok(text) => Ok(View { status: 0, text }),
        Err(Stop::Refused(refusal)) => refused(alloc, name, bytes, refusal),
        Err(Stop::Memory) => Err(Memory),
    }
}
