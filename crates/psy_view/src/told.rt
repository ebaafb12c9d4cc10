//! What `where` tells of a line, and of texts that are refused.
ghost use Rattle.std.specs.Prelude.{◌≡◌, ◌≤◌, ◌++◌, IfOk, length};
ghost use Rattle.psy_base.specs.declared.limits.TheConstants.{FILE_BYTES};
ghost use Rattle.psy_plan.specs.Lines.{line_of};
ghost use Rattle.psy_view.specs.Views.{IsTold, IsWhere, without_feed};

use crate::refusals::{beyond_line, no_refusal_line};
use crate::view::View;
use psy_base::Memory;
use psy_log::Line;
use psy_plan::Refusal;
use psy_report::asked_for;
use psy_where::{WhereFault, explain};
use std::alloc::{AllocError, Global};

/// What is told of a line with which psyc refuses the text in a file of this name. The only error is want of memory.
#[tactic(auto, using(crate::specs::Views::explained, crate::specs::Views::no_refusal, crate::specs::Views::beyond))]
pub fn told_of(alloc: Global, name: &str, bytes: &[u8], line: &[u8]) -> Result<View, Memory>
    requires { length bytes.now ≤ FILE_BYTES }
    ensures { IfOk result (λ v. IsWhere name.now line.now bytes.now v.status v.text.items) }
{
    match explain(alloc, name.as_bytes(), bytes, line) {
        Ok(text) => Ok(View {
            status: 0,
            text: behind(text, asked_for(alloc, bytes, line)?.as_slice())?,
        }),
        Err(WhereFault::NoRefusal) => Ok(View {
            status: 1,
            text: no_refusal_line(alloc, name.as_bytes())?,
        }),
        Err(WhereFault::Beyond) => Ok(View {
            status: 1,
            text: beyond_line(alloc, name.as_bytes())?,
        }),
        Err(WhereFault::Memory) => Err(Memory),
    }
}

// A text, and another behind it.
fn behind(mut text: Vec<u8>, more: &[u8]) -> Result<Vec<u8>, AllocError>
    ensures { IfOk result (λ whole. whole.items ≡ text.items ++ more.now) }
{
    text.extend_from_slice(more)?;
    Ok(text)
}

/// What is told of a text that psyc refuses by this line: what `where` tells of the line.
pub fn told_of_refused(alloc: Global, name: &str, bytes: &[u8], line: &[u8]) -> Result<View, Memory>
    requires { length bytes.now ≤ FILE_BYTES }
    ensures status { IfOk result (λ v. v.status ≡ 1) }
    ensures told { IfOk result (λ v. IsTold name.now bytes.now line.now v.text.items) }
{
    let View { text, .. } = told_of(alloc, name, bytes, without_feed(line))?;
    Ok(View { status: 1, text })
}

/// What is told of a program that is refused.
pub fn refused(alloc: Global, name: &str, bytes: &[u8], refusal: Refusal) -> Result<View, Memory>
    requires { length bytes.now ≤ FILE_BYTES }
    ensures status { IfOk result (λ v. v.status ≡ 1) }
    ensures told { IfOk result (λ v. IsTold name.now bytes.now (line_of refusal) v.text.items) }
{
    let mut line = Line::new();
    line.set(&refusal.note());
    told_of_refused(alloc, name, bytes, line.bytes())
}

// A line without its line feed
fn without_feed(line: &[u8]) -> &[u8]
    ensures { result.now ≡ without_feed line.now }
{
    &line[..line.len().saturating_sub(1)]
}
