//! The variables.
ghost use Rattle.std.specs.Prelude.{◌≡◌, ◌<◌, ◌≤◌, ◌^◌, [], length};
ghost use Rattle.std.specs.Int.{cast_signed, w32};
ghost use Rattle.psy_snap.specs.Forms.{form_of, published_by, variable_form};
ghost use Rattle.psy_snap.specs.Plans.{IsReadable};
ghost use Rattle.psy_snap.specs.Reading.{Gives, each_at, kept_ask, ring_at, said_at, variable_at};

use crate::fault::ReadError;
use crate::fields::{kept, up_to};
use crate::figures::reach;
use psy_base::Items;
use psy_dates::{Plan, VarOpening};
use psy_tree::VarDecl;
use std::alloc::Global;

/// A value of a ring, behind others.
fn value<'a>(
    published: u64,
    decl: &VarDecl,
    back: u32,
    values: &mut Items<i32>,
    bytes: &'a [u8],
) -> Result<&'a [u8], ReadError>
    ensures { Gives (λ rest. (values.new, rest.now)) result (said_at (cast_signed w32) (kept_ask published decl.now.init back) values.old bytes.now) }
{
    let (number, rest) = kept(published, decl.init, u64::from(back), bytes)?;
    values.push(number.cast_signed())?;
    Ok(rest)
}

/// The values of a ring.
fn ring<'a>(
    alloc: Global,
    published: u64,
    decl: &VarDecl,
    size: u32,
    bytes: &'a [u8],
) -> Result<(Items<i32>, &'a [u8]), ReadError>
    ensures { Gives (λ x. (x.0, x.1.now)) result (ring_at published decl.now.init size bytes.now) }
{
    let mut rest = bytes;
    let mut values = Items::new(alloc);
    'places: for back in 0..size {
        rest = value(published, decl, back, &mut values, rest)?;
    }
    Ok((values, rest))
}

/// How many values a variable published up to a date.
#[tactic(auto, unfolding(crate::specs::Forms::variable_form))]
fn published_by(plan: &Plan, number: usize, date: u32) -> u64
    requires plan { IsReadable plan.now }
    requires number { number < length plan.now.unit.variables }
    ensures { result ≡ published_by (variable_form plan.now number) date }
{
    let clock = plan.unit.variables.as_slice()[number].clock;
    plan.unit.clocks.as_slice()[clock as usize].count_to(u64::from(date))
}

#[tactic(auto, unfolding(crate::specs::Reading::variable_at, crate::specs::Forms::variable_form))]
fn variable<'a>(
    alloc: Global,
    plan: &Plan,
    date: u32,
    number: usize,
    variables: &mut Items<VarOpening>,
    bytes: &'a [u8],
) -> Result<&'a [u8], ReadError>
    requires plan { IsReadable plan.now }
    requires number { number < length plan.now.unit.variables }
    ensures { Gives (λ rest. (variables.new, rest.now)) result (variable_at date (variable_form plan.now number) variables.old bytes.now) }
{
    let decl = &plan.unit.variables.as_slice()[number];
    let size = plan.sizes.rings.as_slice()[number];
    let (values, rest) = ring(alloc, published_by(plan, number, date), decl, size, bytes)?;
    let (flag, rest) = up_to(1, rest)?;
    let (reach, rest) = reach(size, flag, rest)?;
    variables.push(VarOpening { values, reach })?;
    Ok(rest)
}

/// The variables.
pub fn variables<'a>(
    alloc: Global,
    plan: &Plan,
    date: u32,
    bytes: &'a [u8],
) -> Result<(Items<VarOpening>, &'a [u8]), ReadError>
    requires plan { IsReadable plan.now }
    ensures { Gives (λ x. (x.0, x.1.now)) result (each_at (variable_at date) (form_of plan.now []).variables [] bytes.now) }
{
    let mut rest = bytes;
    let mut variables = Items::new(alloc);
    'variables: for number in 0..plan.unit.variables.len() {
        rest = variable(alloc, plan, date, number, &mut variables, rest)?;
    }
    Ok((variables, rest))
}
