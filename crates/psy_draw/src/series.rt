//! The columns of the lanes of variables, or of streams.

ghost use Rattle.std.specs.Prelude.{◌≡◌, ◌<◌, [], ◌∷◌, ℕ, Bool, true, IfOk, List, OnOk, bytes_eq, cond, get_or, length, map, replicate};
ghost use Rattle.std.specs.List.{list_any};
ghost use Rattle.psy_draw.specs.ByName.{AddsAt, AreOfEach};
ghost use Rattle.psy_draw.specs.Columns.{Dated, Keeps, dated, is_there, is_there_still, rule};
ghost use Rattle.psy_draw.specs.Lanes.{messages_within, values_within};
ghost use Rattle.psy_draw.specs.Scales.{place_by};
ghost use Rattle.psy_draw.specs.Told.{values_of};

use crate::column::Column;
use crate::columns::add_told;
use crate::firsts::Firsts;
use crate::names::Names;
use crate::scale::Scale;
use crate::values::{Told, message_within, value_within};
use psy_base::Memory;
use psy_log::Note;
use std::alloc::Global;

/// The columns of each of different variables, or of each of different streams. A note costs the same however many there are.
#[derive(Drop)]
pub struct Series<'a> {
    pub names: Names<'a>,
    pub columns: Vec<Vec<Column>>,
    ghost as_many: { length columns.items ≡ length names },
}

impl<'a> Series<'a> {
    ghost use Rattle.psy_draw.specs.Gathering.{AddsEach, AreColumns, AreFirst};

    /// Those of variables: of the values that they have at the first date.
    pub fn of_variables(
        alloc: Global,
        firsts: Firsts<'a>,
        scale: &Scale,
    ) -> Result<Series<'a>, Memory>
        ensures names { IfOk result (λ series. series.names ≡ firsts.entry.names) }
        ensures first { IfOk result (λ series. (values : List ℕ → List Dated) → AreFirst values firsts.entry
            → AreColumns (place_by scale.now) (is_there_still (place_by scale.now)) values series) }
    {
        let Firsts { names, told } = firsts;
        let columns = first_columns(alloc, told.as_slice(), scale)?;
        Ok(Series { names, columns })
    }

    /// Those of streams, without a column.
    pub fn of_streams(alloc: Global, names: Names<'a>) -> Result<Series<'a>, Memory>
        ensures names { IfOk result (λ series. series.names ≡ names.entry) }
        ensures none { IfOk result (λ series. (place : ℕ → ℕ) → AreColumns place (is_there place) (λ _. []) series) }
    {
        let columns = no_columns(alloc, names.len())?;
        Ok(Series { names, columns })
    }

    /// Adds the value in a note, where its date is behind the first one and not past the last.
    pub fn add_value(&mut self, scale: &Scale, note: &Note) -> Result<(), Memory>
        ensures names { self.new.names ≡ self.old.names }
        ensures added { OnOk result (AddsEach (place_by scale.now) (is_there_still (place_by scale.now))
            (λ name. values_within scale.now.from scale.now.to name note.now) self.old self.new) }
    {
        match value_within(note, scale) {
            Some(said) => self.add_told(true, scale, said.name, said.told),
            None => Ok(()),
        }
    }

    // Adds a value, where its name is there.
    fn add_told(
        &mut self,
        of_variable: bool,
        scale: &Scale,
        name: &[u8],
        told: Told,
    ) -> Result<(), Memory>
        ensures names { self.new.names ≡ self.old.names }
        ensures added { OnOk result (AddsEach (place_by scale.now) (rule of_variable (place_by scale.now))
            (λ other. cond (bytes_eq name.now other) (dated told.date told.value ∷ []) []) self.old self.new) }
    {
        match self.names.place(name) {
            Some(place) => add_at(self.columns.as_mut_slice(), place, of_variable, scale, told),
            None => Ok(()),
        }
    }

    /// Adds the message in a note, where its date is in the window.
    pub fn add_message(&mut self, scale: &Scale, note: &Note) -> Result<(), Memory>
        ensures names { self.new.names ≡ self.old.names }
        ensures added { OnOk result (AddsEach (place_by scale.now) (is_there (place_by scale.now))
            (λ name. messages_within scale.now.from scale.now.to name note.now) self.old self.new) }
    {
        match message_within(note, scale) {
            Some(said) => self.add_told(false, scale, said.name, said.told),
            None => Ok(()),
        }
    }

    /// The columns of a name that is there.
    pub fn columns_of(&self, alloc: Global, name: &[u8]) -> Result<Vec<Column>, Memory>
        requires { list_any (bytes_eq name.now) self.now.names ≡ true }
        ensures { IfOk result (λ columns. (place : ℕ → ℕ) (goes : List Dated → Dated → Bool) (values : List ℕ → List Dated)
            → AreColumns place goes values self.now → Keeps place goes (values name.now) columns.items) }
    {
        match self.names.place(name) {
            Some(place) => {
                let columns = copied_at(alloc, self.columns.as_slice(), place)?;
                Ok(columns)
            }
            None => unreachable!(),
        }
    }
}

// The columns at a place.
fn copied_at(alloc: Global, columns: &[Vec<Column>], place: usize) -> Result<Vec<Column>, Memory>
    requires { place < length columns.now }
    ensures { IfOk result (λ copy. copy.items ≡ get_or (map (λ c. c.items) columns.now) place []) }
{
    let copy = Vec::from_slice(alloc, columns[place].as_slice())?;
    Ok(copy)
}

// The columns of values at the first date, each of one value or of none.
fn first_columns(
    alloc: Global,
    told: &[Option<Told>],
    scale: &Scale,
) -> Result<Vec<Vec<Column>>, Memory>
    ensures { IfOk result (λ columns. AreOfEach (place_by scale.now) told.now (map (λ c. c.items) columns.items)) }
{
    let mut columns = Vec::with_capacity(alloc, told.len())?;
    for one in told {
        columns.push(first_column(alloc, *one, scale)?)?;
    }
    Ok(columns)
}

// The column of a value, where there is one.
#[tactic(auto, using(crate::proofs::Keeping::keeps_nothing))]
fn first_column(alloc: Global, told: Option<Told>, scale: &Scale) -> Result<Vec<Column>, Memory>
    ensures { IfOk result (λ columns. Keeps (place_by scale.now) (is_there_still (place_by scale.now)) (values_of told) columns.items) }
{
    let columns = Vec::new(alloc);
    match told {
        Some(told) => with_value(columns, scale, told),
        None => Ok(columns),
    }
}

fn with_value(columns: Vec<Column>, scale: &Scale, told: Told) -> Result<Vec<Column>, Memory>
    ensures { IfOk result (λ new. Keeps (place_by scale.now) (is_there_still (place_by scale.now)) [] columns.items
        → Keeps (place_by scale.now) (is_there_still (place_by scale.now)) (dated told.date told.value ∷ []) new.items) }
{
    let mut columns = columns;
    add_told(&mut columns, true, scale, told)?;
    Ok(columns)
}

// So many lanes without a column.
fn no_columns(alloc: Global, count: usize) -> Result<Vec<Vec<Column>>, Memory>
    ensures { IfOk result (λ columns. map (λ c. c.items) columns.items ≡ replicate count []) }
{
    let mut columns = Vec::with_capacity(alloc, count)?;
    'making: while columns.len() < count {
        columns.push(Vec::new(alloc))?;
    }
    Ok(columns)
}

// Adds a value to the columns at a place.
fn add_at(
    columns: &mut [Vec<Column>],
    place: usize,
    of_variable: bool,
    scale: &Scale,
    told: Told,
) -> Result<(), Memory>
    requires { place < length columns.old }
    ensures as_many { length columns.new ≡ length columns.old }
    ensures added { OnOk result (AddsAt (place_by scale.now) (rule of_variable (place_by scale.now)) place (dated told.date told.value)
        (map (λ c. c.items) columns.old) (map (λ c. c.items) columns.new)) }
{
    let lane = &mut columns[place];
    add_told(lane, of_variable, scale, told)?;
    Ok(())
}
