//! Views of logs: in another form, compared, and tried by assertions.
ghost use Rattle.std.specs.Prelude.{◌≡◌, ◌≤◌, ◌∷◌, [], ℕ, List, IfOk, length};
ghost use Rattle.psy_passes.specs.Listing.{streams_in, variables_in};
ghost use Rattle.psy_passes.specs.Logs.{IsLog};
ghost use Rattle.psy_view.specs.declared.asked.TheConstants.{TEXT_BYTES};
ghost use Rattle.psy_view.specs.Reading.{request_of_export};
ghost use Rattle.psy_view.specs.Views.{IsCompared, IsExpected, IsFaultOf, IsNoLog, ViewOf};

use crate::asked::TEXT_BYTES;
use crate::refusals::{broken_text, wrong_line};
use crate::view::View;
use psy_base::Memory;
use psy_claims::{ClaimFault, expect};
use psy_differ::{DiffFault, diff};
use psy_export::{Format, export_text, unlisted_line};
use psy_passes::laws::many_bytes;
use psy_passes::{Log, PassFault, read_log};
use std::alloc::Global;

/// The run in a text in a format.
#[tactic(auto, using(crate::proofs::LogLemmas::exported_of, crate::proofs::LogLemmas::unexported))]
pub fn exported_text(
    alloc: Global,
    name: &str,
    format: Format,
    bytes: &[u8],
) -> Result<View, Memory>
    requires { length bytes.now ≤ TEXT_BYTES }
    ensures { IfOk result (λ v. ViewOf (request_of_export name.now format) (bytes.now ∷ []) v.status v.text.items) }
{
    many_bytes();
    match export_text(alloc, format, bytes) {
        Ok(text) => Ok(View { status: 0, text }),
        Err(fault) => Ok(View {
            status: 1,
            text: refusal(alloc, name, fault, bytes)?,
        }),
    }
}

/// The first difference of the runs in two texts.
#[tactic(auto, using(crate::specs::Views::same, crate::specs::Views::differs, crate::specs::Views::first_breaks, crate::specs::Views::second_breaks))]
pub fn compared(
    alloc: Global,
    name: &str,
    other: &str,
    first: &[u8],
    second: &[u8],
) -> Result<View, Memory>
    ensures { IfOk result (λ v. IsCompared name.now other.now first.now second.now v.status v.text.items) }
{
    match diff(alloc, first, second) {
        Ok(None) => Ok(View {
            status: 0,
            text: Vec::new(alloc),
        }),
        Ok(Some(text)) => Ok(View { status: 1, text }),
        Err(DiffFault::First { line }) => Ok(View {
            status: 1,
            text: broken_text(alloc, name.as_bytes(), line, b"run", first)?,
        }),
        Err(DiffFault::Second { line }) => Ok(View {
            status: 1,
            text: broken_text(alloc, other.as_bytes(), line, b"run", second)?,
        }),
        Err(DiffFault::Memory) => Err(Memory),
    }
}

/// The first assertion of a text that the run in another doesn't keep.
#[tactic(auto, using(crate::specs::Views::no_log))]
pub fn expected(
    alloc: Global,
    name: &str,
    claims: &str,
    bytes: &[u8],
    text: &[u8],
) -> Result<View, Memory>
    ensures { IfOk result (λ v. IsExpected name.now claims.now bytes.now text.now v.status v.text.items) }
{
    match read_log(alloc, bytes) {
        Ok(log) => tried(alloc, claims, &log, text),
        Err(fault) => Ok(View {
            status: 1,
            text: refusal(alloc, name, fault, bytes)?,
        }),
    }
}

// The same for a log that was read.
#[tactic(auto, using(crate::specs::Views::kept, crate::specs::Views::unkept, crate::specs::Views::wrong))]
fn tried(alloc: Global, claims: &str, log: &Log, text: &[u8]) -> Result<View, Memory>
    requires variables { log.now.listed.variables ≡ variables_in log.now.notes.items }
    requires streams { log.now.listed.streams ≡ streams_in log.now.notes.items }
    ensures { IfOk result (λ v. (name bytes : List ℕ) → IsLog bytes log.now.notes.items → IsExpected name claims.now bytes text.now v.status v.text.items) }
{
    match expect(alloc, claims.as_bytes(), log, text) {
        Ok(None) => Ok(View {
            status: 0,
            text: Vec::new(alloc),
        }),
        Ok(Some(told)) => Ok(View {
            status: 1,
            text: told,
        }),
        Err(ClaimFault::Line { line, slip }) => Ok(View {
            status: 1,
            text: wrong_line(alloc, claims.as_bytes(), line, slip)?,
        }),
        Err(ClaimFault::Memory) => Err(Memory),
    }
}

// The line with which a text that isn't a log is refused.
#[tactic(auto, using(crate::specs::Views::broken, crate::specs::Views::has_unlisted))]
fn refusal(alloc: Global, name: &str, fault: PassFault, bytes: &[u8]) -> Result<Vec<u8>, Memory>
    requires { IsFaultOf bytes.now fault }
    ensures { IfOk result (λ text. IsNoLog name.now bytes.now text.items) }
{
    match fault {
        PassFault::Line { line } => broken_text(alloc, name.as_bytes(), line, b"run", bytes),
        PassFault::Unlisted { line } => Ok(unlisted_line(alloc, name.as_bytes(), line)?),
        PassFault::Memory => Err(Memory),
        PassFault::Many | PassFault::Unread | PassFault::Changed | PassFault::Unwritten => {
            unreachable!()
        }
    }
}
