//! The working copies of an agent's variables.
ghost use Rattle.std.specs.Prelude.{◌≡◌, ◌≢◌, ℕ, ◌+◌, ◌<◌, ◌^◌, Some, map, slice_get, IsSome, IfOk, OnOk};
ghost use Rattle.std.specs.List.{zip};
ghost use Rattle.psy_code.specs.Execution.{copy_of, with_copy, copy_from};
ghost use Rattle.psy_machine.specs.Copying.{copies_in, entry_from, entry_with, with_values, IsIndex};

use psy_code::CopyInit;
use std::alloc::{AllocError, Global};
use std::marker::Model;

/// The working copy of a variable.
#[derive(Clone, Copy, Debug)]
struct Entry {
    variable: u32,
    value: i32,
}

/// The working copies of an agent's variables. Where a variable stands twice, the first entry is its copy.
#[derive(Debug, Drop)]
pub struct Copies {
    entries: Vec<Entry>,
    /// By variable, the place of its first entry; any place at a variable that has none.
    places: Vec<usize>,
}

impl Model for Copies {
    ghost use Rattle.std.specs.Prelude.{List};
    ghost use Rattle.psy_code.specs.Execution.{Copy};

    ghost Value = { List Copy };

    ghost use Rattle.psy_machine.specs.Copying.{copies_in, IsIndex};

    ghost view = { λ c. copies_in c.entries.items };

    ghost invariant = { λ c. IsIndex c.entries.items c.places.items };
}

impl Copies {
    pub fn new(alloc: Global, inits: &[CopyInit]) -> Result<Copies, AllocError>
        ensures { IfOk result (λ c. c ≡ map copy_from inits.now) }
    {
        Copies::of(alloc, entries_of(alloc, inits)?)
    }

    /// The copies of the same variables with these values, one each.
    pub fn with_values(
        alloc: Global,
        inits: &[CopyInit],
        values: &[i32],
    ) -> Result<Copies, AllocError>
        ensures { IfOk result (λ c. c ≡ with_values (map copy_from inits.now) values.now) }
    {
        Copies::of(alloc, entries_with(alloc, inits, values)?)
    }

    fn of(alloc: Global, entries: Vec<Entry>) -> Result<Copies, AllocError>
        ensures { IfOk result (λ c. c ≡ copies_in entries.items) }
    {
        let places = index_of(alloc, &entries)?;
        Ok(Copies { entries, places })
    }

    #[inline(always)]
    pub fn get(&self, variable: u32) -> i32
        requires { IsSome (copy_of variable self.now) }
        ensures { copy_of variable self.now ≡ Some result }
    {
        self.entries[self.places[variable as usize]].value
    }

    #[inline(always)]
    pub fn set(&mut self, variable: u32, value: i32)
        requires { IsSome (copy_of variable self.old) }
        ensures { self.new ≡ with_copy variable value self.old }
    {
        let place = self.places[variable as usize];
        self.entries[place].value = value;
    }
}

fn entries_of(alloc: Global, inits: &[CopyInit]) -> Result<Vec<Entry>, AllocError>
    ensures { IfOk result (λ entries. entries.items ≡ map entry_from inits.now) }
{
    inits
        .iter()
        .map(|c| Entry {
            variable: c.variable,
            value: c.init,
        })
        .collect(alloc)
}

fn entries_with(alloc: Global, inits: &[CopyInit], values: &[i32]) -> Result<Vec<Entry>, AllocError>
    ensures { IfOk result (λ entries. entries.items ≡ map entry_with (zip inits.now values.now)) }
{
    inits
        .iter()
        .zip(values.iter())
        .map(|(c, value)| Entry {
            variable: c.variable,
            value: *value,
        })
        .collect(alloc)
}

/// By variable, the place of its first entry.
fn index_of(alloc: Global, entries: &[Entry]) -> Result<Vec<usize>, AllocError>
    ensures { IfOk result (λ places. IsIndex entries.now places.items) }
{
    let mut places = Vec::new(alloc);
    let mut place = entries.len();
    while place > 0 {
        place -= 1;
        put(&mut places, entries[place].variable as usize, place)?;
    }
    Ok(places)
}

/// Puts a place at a variable, however great its number is.
fn put(places: &mut Vec<usize>, variable: usize, place: usize) -> Result<(), AllocError>
    requires { variable < 2 ^ 32 }
    ensures here { OnOk result (slice_get places.new.items variable ≡ Some place) }
    ensures elsewhere { OnOk result ((k at : ℕ) → k ≢ variable
        → slice_get places.old.items k ≡ Some at → slice_get places.new.items k ≡ Some at) }
{
    if places.len() <= variable {
        places.resize(variable + 1, 0)?;
    }
    places[variable] = place;
    Ok(())
}
