//! Assertions, tried on a run.
ghost use Rattle.std.specs.Prelude.{◌≡◌, ℕ, Err, IfOk, map, option_map, slice_get};
ghost use Rattle.psy_text.specs.Lines.{lines_of};
ghost use Rattle.psy_passes.specs.Listing.{streams_in, variables_in};
ghost use Rattle.psy_claims.specs.Claims.{WrongAt};
ghost use Rattle.psy_claims.specs.Outcome.{IsTried, first_failing};
ghost use Rattle.psy_claims.specs.declared.fault.ClaimFault.TheVariants.{Line};
ghost use Rattle.psy_claims.specs.declared.fault.Slip.{Slip as Wrong};

use crate::breach::failure_text;
use crate::claimed::Claimed;
use crate::fault::ClaimFault;
use crate::read::read_claims;
use psy_assert::{Assertion, first_broken, judge};
use psy_base::Memory;
use psy_log::Note;
use psy_passes::Log;
use std::alloc::{AllocError, Global};

/// Tries the assertions of a text, the file of which has this name, on a run: what is told of the first that it doesn't keep, none where it
/// keeps all; or the first line that is wrong.
pub fn expect(
    alloc: Global,
    name: &[u8],
    log: &Log,
    text: &[u8],
) -> Result<Option<Vec<u8>>, ClaimFault>
    requires variables { log.now.listed.variables ≡ variables_in log.now.notes.items }
    requires streams { log.now.listed.streams ≡ streams_in log.now.notes.items }
    ensures tried { IfOk result (λ told. IsTried name.now log.now.notes.items text.now (option_map (λ t. t.items) told)) }
    ensures wrong { (line : ℕ) (slip : Wrong) → result ≡ Err (Line line slip) → WrongAt log.now.notes.items 1 (lines_of text.now) line slip }
{
    let claims = read_claims(alloc, &log.listed, text)?;
    let notes = log.notes.as_slice();
    match first_failing(alloc, notes, claims.as_slice())? {
        Some(claimed) => Ok(Some(failure_text(
            alloc,
            name,
            &claimed,
            &judge(&claimed.assertion, notes),
        )?)),
        None => Ok(None),
    }
}

// The first assertion that isn't kept.
fn first_failing<'a>(
    alloc: Global,
    notes: &[Note],
    claims: &[Claimed<'a>],
) -> Result<Option<Claimed<'a>>, Memory>
    ensures { IfOk result (λ found. found ≡ first_failing notes.now claims.now) }
{
    let assertions = assertions_of(alloc, claims)?;
    match first_broken(alloc, assertions.as_slice(), notes)? {
        Some(place) => Ok(claim_at(claims, place)),
        None => Ok(None),
    }
}

// The assertion at a place.
fn claim_at<'a>(claims: &[Claimed<'a>], place: usize) -> Option<Claimed<'a>>
    ensures { result ≡ slice_get claims.now place }
{
    claims.get(place).copied()
}

// The assertions alone.
fn assertions_of<'a>(
    alloc: Global,
    claims: &[Claimed<'a>],
) -> Result<Vec<Assertion<'a>>, AllocError>
    ensures { IfOk result (λ assertions. assertions.items ≡ map (λ c. c.assertion) claims.now) }
{
    let mut assertions = Vec::new(alloc);
    for claimed in claims {
        assertions.push(claimed.assertion)?;
    }
    Ok(assertions)
}
