//! The columns of a lane.

ghost use Rattle.std.specs.Prelude.{◌≡◌, ◌-◌, [], ◌∷◌, Bool, ℕ, List, OnOk, length, slice_get};
ghost use Rattle.std.specs.Option.{option_copied};
ghost use Rattle.psy_draw.specs.Columns.{AddsValues, Dated, Judges, StandsFor, dated, is_there, is_there_still, rule};
ghost use Rattle.psy_draw.specs.Scales.{place_by};

use crate::column::Column;
use crate::scale::Scale;
use crate::values::Told;
use psy_base::Memory;

/// Adds a value to the columns of a lane, whose places rise: it goes into the last column where its place isn't behind that, and in the lane of a variable
/// also where it is the value that stands there already.
pub fn add_told(
    columns: &mut Vec<Column>,
    of_variable: bool,
    scale: &Scale,
    told: Told,
) -> Result<(), Memory>
    ensures { OnOk result (AddsValues (place_by scale.now) (rule of_variable (place_by scale.now)) (dated told.date told.value ∷ [])
        columns.old.items columns.new.items) }
{
    let one = Column::of(scale, told.date, told.value);
    let joins = joins(columns.last(), of_variable, &one);
    add(columns, joins, one)
}

fn joins(last: Option<&Column>, of_variable: bool, one: &Column) -> bool
    ensures { (place : ℕ → ℕ) → one.now.x ≡ place one.now.date → Judges place (rule of_variable place) result (option_copied last.entry) one.now }
{
    if of_variable {
        joins_value(last, one)
    } else {
        joins_place(last, one)
    }
}

fn joins_value(last: Option<&Column>, one: &Column) -> bool
    ensures { (place : ℕ → ℕ) → one.now.x ≡ place one.now.date → Judges place (is_there_still place) result (option_copied last.entry) one.now }
{
    match last {
        Some(last) => one.x <= last.x || last.is_all(one.first),
        None => false,
    }
}

fn joins_place(last: Option<&Column>, one: &Column) -> bool
    ensures { (place : ℕ → ℕ) → one.now.x ≡ place one.now.date → Judges place (is_there place) result (option_copied last.entry) one.now }
{
    match last {
        Some(last) => one.x <= last.x,
        None => false,
    }
}

// Adds a column of one value, to the last column where there is one that it joins.
fn add(columns: &mut Vec<Column>, joins: bool, one: Column) -> Result<(), Memory>
    ensures { OnOk result ((place : ℕ → ℕ) (goes : List Dated → Dated → Bool) → one.x ≡ place one.date → StandsFor (one.first ∷ []) one
        → Judges place goes joins (slice_get columns.old.items (length columns.old.items - 1)) one
        → AddsValues place goes (dated one.date one.first ∷ []) columns.old.items columns.new.items) }
{
    match columns.pop() {
        None => columns.push(one)?,
        Some(last) if joins => columns.push(last.and(one.first))?,
        Some(last) => {
            columns.push(last)?;
            columns.push(one)?;
        }
    }
    Ok(())
}
