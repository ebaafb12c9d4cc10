//! The functions, and lists of values.
ghost use Rattle.std.specs.Prelude.{◌≡◌, ◌-◌, ◌∷◌, [], ◌≤◌, ◌<◌};
ghost use Rattle.psy_image.specs.Images.{function, functions, value, values_up_to};
ghost use Rattle.psy_image.specs.Reading.{Gives, read};

use crate::fault::ReadError;
use crate::fields::{any, signed, within};
use crate::limits::COUNTERS;
use psy_base::Items;
use psy_base::limits::{FUNCTIONS, NAMES};
use psy_code::FunctionCode;
use std::alloc::Global;

#[tactic(auto, unfolding(crate::specs::Images::value))]
fn value<'a>(values: &mut Items<i32>, bytes: &'a [u8]) -> Result<&'a [u8], ReadError>
    ensures { Gives (λ rest. (values.new, rest.now)) result (read (value values.old) bytes.now) }
{
    let (value, rest) = signed(bytes)?;
    values.push(value)?;
    Ok(rest)
}

/// At most so many values.
#[tactic(auto, unfolding(crate::specs::Images::values_up_to))]
pub fn values(alloc: Global, most: u32, bytes: &[u8]) -> Result<(Items<i32>, &[u8]), ReadError>
    ensures { Gives (λ x. (x.0, x.1.now)) result (read (values_up_to most) bytes.now) }
{
    let (count, mut rest) = within(0, most, bytes)?;
    let mut values = Items::new(alloc);
    'values: for _ in 0..count {
        rest = value(&mut values, rest)?;
    }
    Ok((values, rest))
}

#[tactic(auto, unfolding(crate::specs::Images::function), using(crate::proofs::Exact::read_then))]
fn function<'a>(
    alloc: Global,
    functions: &mut Items<FunctionCode>,
    bytes: &'a [u8],
) -> Result<&'a [u8], ReadError>
    ensures { Gives (λ rest. (functions.new, rest.now)) result (read (function functions.old) bytes.now) }
{
    let (entry, rest) = any(bytes)?;
    let (params, rest) = within(0, NAMES as u32, rest)?;
    let (locals, rest) = values(alloc, (NAMES as u32).saturating_sub(params), rest)?;
    let (counters, rest) = within(0, COUNTERS, rest)?;
    functions.push(FunctionCode {
        entry,
        params,
        locals,
        counters,
    })?;
    Ok(rest)
}

/// The functions.
#[tactic(auto, unfolding(crate::specs::Images::functions))]
pub fn functions(alloc: Global, bytes: &[u8]) -> Result<(Items<FunctionCode>, &[u8]), ReadError>
    ensures { Gives (λ x. (x.0, x.1.now)) result (read functions bytes.now) }
{
    let (count, mut rest) = within(0, FUNCTIONS as u32, bytes)?;
    let mut functions = Items::new(alloc);
    'functions: for _ in 0..count {
        rest = function(alloc, &mut functions, rest)?;
    }
    Ok((functions, rest))
}
