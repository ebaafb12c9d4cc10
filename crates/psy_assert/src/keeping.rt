//! Finds the first assertion that isn't kept.
ghost use Rattle.std.specs.Prelude.{◌≡◌, ◌&&◌, true, false, not, is_some, IfOk, IfSome};
ghost use Rattle.std.specs.List.{position};
ghost use Rattle.psy_assert.specs.Sums.{stands_so};
ghost use Rattle.psy_assert.specs.Cuts.{first_cut, last_cut};
ghost use Rattle.psy_assert.specs.Spans.{first_date, last_date};
ghost use Rattle.psy_assert.specs.Tallies.{IsTally, StandsAt};
ghost use Rattle.psy_assert.specs.Verdicts.{first_by, is_kept, verdict_of};

use crate::cut::{first_cut, last_cut};
use crate::judging::judge;
use crate::sought::{first_sought, meets};
use crate::sum::{Newest, Sought, is_by_ends, wanted_of};
use crate::tally::Tally;
use crate::terms::{Assertion, Claim, Relation};
use crate::verdict::Verdict;
use psy_base::Memory;
use psy_log::Note;
use std::alloc::Global;

/// The place of the first of these assertions that isn't kept, counted from 0. The only error is want of memory.
pub fn first_broken(
    alloc: Global,
    assertions: &[Assertion],
    notes: &[Note],
) -> Result<Option<usize>, Memory>
    ensures { IfOk result (λ place. place ≡ position (λ a. not (is_kept (verdict_of a notes.now))) assertions.now) }
{
    let named = Tally::of(alloc, false, assertions, notes)?;
    let valued = Tally::of(alloc, true, assertions, notes)?;
    Ok(first_unkept(&named, &valued, assertions, notes))
}

// The place of the first that isn't kept, by what is told of names and of their values.
fn first_unkept(
    named: &Tally,
    valued: &Tally,
    assertions: &[Assertion],
    notes: &[Note],
) -> Option<usize>
    requires named { IsTally false named.now notes.now }
    requires valued { IsTally true valued.now notes.now }
    ensures { result ≡ position (λ a. not (is_kept (verdict_of a notes.now))) assertions.now }
{
    assertions
        .iter()
        .position(|assertion| !is_kept(named, valued, assertion, notes))
}

// Whether an assertion is kept.
fn is_kept(named: &Tally, valued: &Tally, assertion: &Assertion, notes: &[Note]) -> bool
    requires named { IsTally false named.now notes.now }
    requires valued { IsTally true valued.now notes.now }
    ensures { result ≡ is_kept (verdict_of assertion.now notes.now) }
{
    match window(false, named, assertion) {
        Some((first, last)) => is_kept_between(named, valued, first, last, assertion, notes),
        None => is_kept_alone(assertion, notes),
    }
}

// The places of an assertion's cuts; none where they aren't among those of the tally.
fn window(by_value: bool, tally: &Tally, assertion: &Assertion) -> Option<(usize, usize)>
    ensures first { IfSome result (λ places. StandsAt tally.now.cuts.items places.0 (first_cut by_value assertion.now)) }
    ensures last { IfSome result (λ places. StandsAt tally.now.cuts.items places.1 (last_cut by_value assertion.now)) }
{
    let first = tally.place(&first_cut(by_value, assertion))?;
    let last = tally.place(&last_cut(by_value, assertion))?;
    Some((first, last))
}

// Whether an assertion is kept whose cuts stand at these places.
fn is_kept_between(
    named: &Tally,
    valued: &Tally,
    first: usize,
    last: usize,
    assertion: &Assertion,
    notes: &[Note],
) -> bool
    requires named { IsTally false named.now notes.now }
    requires valued { IsTally true valued.now notes.now }
    requires first { StandsAt named.now.cuts.items first (first_cut false assertion.now) }
    requires last { StandsAt named.now.cuts.items last (last_cut false assertion.now) }
    ensures { result ≡ is_kept (verdict_of assertion.now notes.now) }
{
    let found = is_found(named, valued, first, last, assertion, notes);
    match assertion.claim {
        Claim::Values {
            relation,
            value,
            ..
        } => {
            let begins = stands_so(relation, value, named.newest(first));
            let told = named.newest(last).is_some();
            are_all(begins, found, told)
        }
        Claim::NoStop => !found,
        Claim::NoMessage { .. } => !found,
        Claim::SomeMessage { .. } => found,
    }
}

// Whether a note decides an assertion whose cuts stand at these places. That no value is this one is told by the notes of that value alone.
fn is_found(
    named: &Tally,
    valued: &Tally,
    first: usize,
    last: usize,
    assertion: &Assertion,
    notes: &[Note],
) -> bool
    requires named { IsTally false named.now notes.now }
    requires valued { IsTally true valued.now notes.now }
    requires first { StandsAt named.now.cuts.items first (first_cut false assertion.now) }
    requires last { StandsAt named.now.cuts.items last (last_cut false assertion.now) }
    ensures { result ≡ is_some (first_by assertion.now.claim (first_date assertion.now.span) (last_date assertion.now.span) notes.now) }
{
    let wanted = wanted_of(&assertion.claim);
    if is_by_ends(wanted) {
        return named.has_between(first, last, wanted);
    }
    match window(true, valued, assertion) {
        Some((first, last)) => valued.has_between(first, last, Sought::Any),
        None => first_sought(assertion, notes).is_some(),
    }
}

// Whether values begin as they should, none fails later, and there is any.
fn are_all(begins: bool, fails: bool, told: bool) -> bool
    ensures { result ≡ ((begins && not fails) && told) }
{
    begins && !fails && told
}

// Whether the newest value, where there is one, stands so to this one.
fn stands_so(relation: Relation, value: i32, newest: Option<Newest>) -> bool
    ensures { result ≡ stands_so relation value newest }
{
    match newest {
        Some(newest) => meets(relation, newest.value, value),
        None => true,
    }
}

// Whether an assertion is kept, by each note.
fn is_kept_alone(assertion: &Assertion, notes: &[Note]) -> bool
    ensures { result ≡ is_kept (verdict_of assertion.now notes.now) }
{
    matches!(judge(assertion, notes), Verdict::Kept)
}
