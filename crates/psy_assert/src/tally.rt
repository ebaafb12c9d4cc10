//! What the notes of a run tell, summed up between the cuts that assertions make.
ghost use Rattle.std.specs.Prelude.{◌≡◌, ◌<◌, ◌≤◌, ◌++◌, ◌∷◌, [], ◌&&◌, ◌||◌, Bool, true, if◌then◌else◌, List, Some, length, IfOk, IfSome, slice_index_or};
ghost use Rattle.std.specs.List.{list_any};
ghost use Rattle.std.specs.List.Sorted.{IsSorted};
ghost use Rattle.psy_log.specs.declared.note.Note.{Note as Said};
ghost use Rattle.psy_assert.specs.declared.cut.Cut.{Cut as Split};
ghost use Rattle.psy_assert.specs.declared.sum.Sought.{Sought as Wanted};
ghost use Rattle.psy_assert.specs.declared.sum.Sum.{Sum as Summed};
ghost use Rattle.psy_assert.specs.Cuts.{cut_cmp};
ghost use Rattle.psy_assert.specs.Sums.{has_sought, is_between, is_by_ends, later, passes, rank, value_of};
ghost use Rattle.psy_assert.specs.Tallies.{IsSettling, IsSummed, IsTally, StandsAt};

use crate::cut::{Cut, first_cut, last_cut, note_cut};
use crate::sum::{
    Newest, Sought, Sum, has_sought, is_by_ends, later, value_of, wanted_of, with_value,
};
use crate::terms::Assertion;
use psy_base::Memory;
use psy_log::Note;
use std::alloc::Global;

/// Cuts in their order, and what is told up to each from the one before it on.
#[derive(Drop)]
pub struct Tally<'a> {
    cuts: Vec<Cut<'a>>,
    sums: Vec<Sum>,
}

impl<'a> Tally<'a> {
    /// What these notes tell between the cuts of these assertions, by name; or by name and value, for those that only single values tell. The only
    /// error is want of memory.
    pub fn of(
        alloc: Global,
        by_value: bool,
        assertions: &[Assertion<'a>],
        notes: &[Note],
    ) -> Result<Tally<'a>, Memory>
        ensures { IfOk result (λ tally. IsTally by_value tally notes.now) }
    {
        let cuts = cuts_of(alloc, by_value, assertions)?;
        let mut sums = nothing(alloc, cuts.len())?;
        sum_up(by_value, cuts.as_slice(), sums.as_mut_slice(), notes);
        Ok(Tally { cuts, sums })
    }

    /// The place of a cut; none where it isn't among them.
    pub fn place(&self, cut: &Cut) -> Option<usize>
        ensures { IfSome result (λ place. StandsAt self.now.cuts.items place cut.now) }
    {
        self.cuts.as_slice().binary_search(cut).ok()
    }

    /// Whether what is looked for stands behind the cut at one place and before that at another.
    pub fn has_between(&self, first: usize, last: usize, sought: Sought) -> bool
        requires size { length self.now.sums.items ≡ length self.now.cuts.items }
        requires within { last < length self.now.cuts.items }
        ensures { (by_value : Bool) (notes : List Said) → IsTally by_value self.now notes → is_by_ends sought ≡ true
            → result ≡ list_any (λ n. is_between by_value self.now.cuts.items first last n && passes sought (value_of n)) notes }
    {
        let sums = self.sums.as_slice();
        let mut at = first;
        while at < last {
            at += 1;
            if has_sought(sought, sums[at].extent) {
                return true;
            }
        }
        false
    }

    /// The newest value of its subject before the cut at a place.
    pub fn newest(&self, place: usize) -> Option<Newest>
        requires size { length self.now.sums.items ≡ length self.now.cuts.items }
        requires within { place < length self.now.cuts.items }
        ensures { (s : Summed) → result ≡ (slice_index_or self.now.sums.items place s).newest }
    {
        self.sums.as_slice()[place].newest
    }
}

// The cuts of these assertions, in their order, each once.
fn cuts_of<'a>(
    alloc: Global,
    by_value: bool,
    assertions: &[Assertion<'a>],
) -> Result<Vec<Cut<'a>>, Memory>
    ensures { IfOk result (λ cuts. IsSorted cut_cmp cuts.items) }
{
    let mut cuts = Vec::new(alloc);
    for assertion in assertions {
        if !by_value || !is_by_ends(wanted_of(&assertion.claim)) {
            cuts.push(first_cut(by_value, assertion))?;
            cuts.push(last_cut(by_value, assertion))?;
        }
    }
    cuts.sort_unstable();
    cuts.dedup();
    Ok(cuts)
}

// Sums of no notes.
fn nothing(alloc: Global, count: usize) -> Result<Vec<Sum>, Memory>
    ensures { IfOk result (λ sums. (by_value : Bool) (cuts : List Split) → length cuts ≡ count → IsSummed by_value cuts [] sums.items) }
{
    let mut sums = Vec::new(alloc);
    sums.resize(
        count,
        Sum {
            extent: None,
            newest: None,
        },
    )?;
    Ok(sums)
}

// How many cuts come before this one.
fn rank(cuts: &[Cut], cut: &Cut) -> usize
    requires order { IsSorted cut_cmp cuts.now }
    ensures { result ≡ rank cuts.now cut.now }
{
    cuts.partition_point(|other| other.is_before(cut))
}

// Sums up these notes.
fn sum_up(by_value: bool, cuts: &[Cut], sums: &mut [Sum], notes: &[Note])
    requires order { IsSorted cut_cmp cuts.now }
    requires sums { IsSummed by_value cuts.now [] sums.old }
    ensures { IsSettling by_value cuts.now notes.now (length cuts.now) sums.new }
{
    add_all(by_value, cuts, sums, notes);
    settle(cuts, sums);
}

// Adds notes, one behind the other.
fn add_all(by_value: bool, cuts: &[Cut], sums: &mut [Sum], notes: &[Note])
    requires order { IsSorted cut_cmp cuts.now }
    requires sums { IsSummed by_value cuts.now [] sums.old }
    ensures { IsSummed by_value cuts.now notes.now sums.new }
{
    let mut place = 0;
    for note in notes {
        add(by_value, cuts, sums, place, note);
        place += 1;
    }
}

// Adds a note behind so many others to the sum up to the first cut that doesn't come before it.
fn add(by_value: bool, cuts: &[Cut], sums: &mut [Sum], place: usize, note: &Note)
    requires order { IsSorted cut_cmp cuts.now }
    requires size { length sums.old ≡ length cuts.now }
    ensures { (notes : List Said) → place ≡ length notes → IsSummed by_value cuts.now notes sums.old
        → IsSummed by_value cuts.now (notes ++ note.now ∷ []) sums.new }
{
    if let Some(cut) = note_cut(by_value, note) {
        let at = rank(cuts, &cut);
        if at < cuts.len() {
            let value = value_of(note);
            let own = cuts[at].is_beside(&cut);
            sums[at] = with_note(sums[at], own, Newest { place, value });
        }
    }
}

// A sum with a note, which may have the subject of its cut.
fn with_note(sum: Sum, own: bool, note: Newest) -> Sum
    ensures extent { (wanted : Wanted) → is_by_ends wanted ≡ true
        → has_sought wanted result.extent ≡ (has_sought wanted sum.extent || passes wanted note.value) }
    ensures newest { result.newest ≡ (if own then Some note else sum.newest) }
{
    Sum {
        extent: Some(with_value(sum.extent, note.value)),
        newest: if own { Some(note) } else { sum.newest },
    }
}

// What was newest of a subject before a cut is so before the next, where nothing newer is told between them.
fn settle(cuts: &[Cut], sums: &mut [Sum])
    requires order { IsSorted cut_cmp cuts.now }
    requires size { length sums.old ≡ length cuts.now }
    ensures { (by_value : Bool) (notes : List Said) → IsSummed by_value cuts.now notes sums.old
        → IsSettling by_value cuts.now notes (length cuts.now) sums.new }
{
    let mut at = 1;
    while at < sums.len() {
        let same = cuts[at - 1].is_beside(&cuts[at]);
        sums[at] = settled(sums[at - 1], sums[at], same);
        at += 1;
    }
}

// A sum behind another one, which may be of the same subject.
fn settled(before: Sum, sum: Sum, same: bool) -> Sum
    ensures extent { result.extent ≡ sum.extent }
    ensures newest { result.newest ≡ (if same then later before.newest sum.newest else sum.newest) }
{
    Sum {
        extent: sum.extent,
        newest: if same {
            later(before.newest, sum.newest)
        } else {
            sum.newest
        },
    }
}
