//! The program of a run, and its inputs.
ghost use Rattle.std.specs.Prelude.{◌≡◌, [], List, Some, IfOk, map};
ghost use Rattle.psy_draw.specs.Dates.{last_date};
ghost use Rattle.psy_draw.specs.Homes.{housed_of};
ghost use Rattle.psy_film.specs.Sources.{AreFedBy, homes_by, owning_by};
ghost use Rattle.psy_log.specs.declared.note.Note.{Note as Said};
ghost use Rattle.psy_match.specs.Silences.{AreStopped};

use psy_draw::Home;
use psy_history::Inputs;
use psy_log::Note;
use psy_match::{Silencing, homes, input_notes};
use psy_tree::Unit;
use std::alloc::{AllocError, Global};

/// The program of a run, and the lists of its inputs, where they are given.
#[derive(Clone, Copy)]
pub struct Source<'s> {
    pub unit: &'s Unit,
    pub inputs: Option<&'s Inputs>,
}

/// The agents that aren't of processor 0; none where no program is given.
pub fn homes_by<'s>(alloc: Global, source: Option<Source<'s>>) -> Result<Vec<Home<'s>>, AllocError>
    ensures { IfOk result (λ homes. map housed_of homes.items ≡ homes_by source.entry) }
{
    match source {
        Some(source) => homes(alloc, source.unit),
        None => Ok(Vec::new(alloc)),
    }
}

/// What takes in from when on variables are silent; of none where no program is given.
pub fn silencing_by<'s>(
    alloc: Global,
    source: Option<Source<'s>>,
) -> Result<Silencing<'s>, AllocError>
    ensures { IfOk result (λ silencing. AreStopped (owning_by source.entry) [] silencing) }
{
    match source {
        Some(source) => Silencing::of(alloc, source.unit),
        None => Ok(Silencing::none(alloc)),
    }
}

/// What inputs publish in a run up to its last date; nothing where none are given.
pub fn fed_by<'s>(
    alloc: Global,
    source: Option<Source<'s>>,
    last: u64,
) -> Result<Vec<Note<'s>>, AllocError>
    ensures { IfOk result (λ more. (notes : List Said) → last ≡ last_date notes → AreFedBy source.entry notes more.items) }
{
    match source {
        Some(source) => fed_with(alloc, source, last),
        None => Ok(Vec::new(alloc)),
    }
}

// The same where a program is given.
fn fed_with<'s>(alloc: Global, source: Source<'s>, last: u64) -> Result<Vec<Note<'s>>, AllocError>
    ensures { IfOk result (λ more. (notes : List Said) → last ≡ last_date notes → AreFedBy (Some source.entry) notes more.items) }
{
    match source.inputs {
        Some(inputs) => input_notes(alloc, source.unit, inputs, last),
        None => Ok(Vec::new(alloc)),
    }
}
