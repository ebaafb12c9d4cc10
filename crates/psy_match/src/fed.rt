//! What the inputs of a program publish.
ghost use Rattle.std.specs.Prelude.{◌≡◌, ◌++◌, ◌<◌, ℕ, [], List, true, bytes_eq, IfOk, OnOk, get_or, length};
ghost use Rattle.std.specs.List.{flat_map, list_all, list_any, range_with_len};
ghost use Rattle.psy_match.specs.Feeding.{all_input_values, input_values, is_value_of, published_at, published_by, published_on, values_of, variable_names};
ghost use Rattle.psy_tree.specs.Parts.{clock_in};

use psy_base::Items;
use psy_clock::Clock;
use psy_history::Inputs;
use psy_log::Note;
use psy_tree::{Unit, VarDecl};
use std::alloc::{AllocError, Global};
use std::slice;

/// What the inputs of a program publish up to a date, as notes of values: those of their lists at the dates of their clocks, of which the last one stays, or
/// their first value where they have no list.
pub fn input_notes<'u>(
    alloc: Global,
    unit: &'u Unit,
    inputs: &Inputs,
    last: u64,
) -> Result<Vec<Note<'u>>, AllocError>
    ensures values { IfOk result (λ notes. flat_map published_by notes.items ≡ all_input_values unit.now inputs.now.lists last) }
    ensures alone { IfOk result (λ notes. list_all (is_value_of (variable_names unit.now)) notes.items ≡ true) }
{
    let mut notes = Vec::new(alloc);
    'variables: for number in 0..unit.variables.len() {
        add_input(&mut notes, unit, inputs, last, number)?;
    }
    Ok(notes)
}

// Adds what a variable publishes, where it is an input.
fn add_input<'u>(
    notes: &mut Vec<Note<'u>>,
    unit: &'u Unit,
    inputs: &Inputs,
    last: u64,
    number: usize,
) -> Result<(), AllocError>
    requires { number < length unit.now.variables }
    ensures values { OnOk result (flat_map published_by notes.new.items ≡ flat_map published_by notes.old.items
        ++ input_values unit.now inputs.now.lists last number) }
    ensures alone { OnOk result (list_all (is_value_of (variable_names unit.now)) notes.old.items ≡ true
        → list_all (is_value_of (variable_names unit.now)) notes.new.items ≡ true) }
{
    let variable = &unit.variables.as_slice()[number];
    if variable.owner.is_some() {
        return Ok(());
    }
    add_values(
        notes,
        variable.name.bytes(),
        clock_in(unit, variable.clock),
        last,
        values_of(variable, list_of(inputs, number)),
    )?;
    Ok(())
}

fn clock_in(unit: &Unit, clock: u32) -> Clock
    ensures { result ≡ clock_in unit.now clock }
{
    match unit.clocks.as_slice().get(clock as usize) {
        Some(clock) => *clock,
        None => Clock::base(),
    }
}

fn list_of(inputs: &Inputs, number: usize) -> &[i32]
    ensures { result.now ≡ get_or inputs.now.lists number [] }
{
    match inputs.lists.as_slice().get(number) {
        Some(list) => list.as_slice(),
        None => &[],
    }
}

// The values that an input publishes one after the other.
fn values_of<'v>(variable: &'v VarDecl, list: &'v [i32]) -> &'v [i32]
    ensures { result.now ≡ values_of variable.now.init list.now }
{
    if list.is_empty() {
        slice::from_ref(&variable.init)
    } else {
        list
    }
}

fn add_values<'u>(
    notes: &mut Vec<Note<'u>>,
    name: &'u [u8],
    clock: Clock,
    last: u64,
    values: &[i32],
) -> Result<(), AllocError>
    ensures values { OnOk result (flat_map published_by notes.new.items
        ≡ flat_map published_by notes.old.items ++ published_on name.now clock last values.now) }
    ensures alone { OnOk result ((names : List (List ℕ)) → list_any (bytes_eq name.now) names ≡ true → list_all (is_value_of names) notes.old.items ≡ true
        → list_all (is_value_of names) notes.new.items ≡ true) }
{
    'values: for number in 0..values.len() {
        add_value(notes, name, clock, last, values, number)?;
    }
    Ok(())
}

// Adds a value, where its date isn't past the last one.
fn add_value<'u>(
    notes: &mut Vec<Note<'u>>,
    name: &'u [u8],
    clock: Clock,
    last: u64,
    values: &[i32],
    number: usize,
) -> Result<(), AllocError>
    requires { number < length values.now }
    ensures values { OnOk result (flat_map published_by notes.new.items ≡ flat_map published_by notes.old.items
        ++ published_at name.now clock last values.now number) }
    ensures alone { OnOk result ((names : List (List ℕ)) → list_any (bytes_eq name.now) names ≡ true → list_all (is_value_of names) notes.old.items ≡ true
        → list_all (is_value_of names) notes.new.items ≡ true) }
{
    let date = u128::from(clock.first) + number as u128 * u128::from(clock.period);
    if u128::from(last) < date {
        return Ok(());
    }
    Ok(notes.push(Note::Value {
        date: date as u64,
        variable: name,
        value: values[number],
    })?)
}
