//! The inputs file.
ghost use Rattle.std.specs.Prelude.{◌≡◌, ◌≢◌, ◌&&◌, ◌++◌, ℕ, List, [], ◌∷◌, map, if◌then◌else◌, MatchBool, Some, None, IfOk, Ok, Err, is_none};
ghost use Rattle.std.specs.Prelude.{bytes_eq, slice_get, ℤ};
ghost use Rattle.std.specs.List.{list_all, position};
ghost use Rattle.psy_history.specs.Compiled.{AreInputs};
ghost use Rattle.psy_meaning.specs.Units.{IsBare};
ghost use Rattle.psy_script.specs.Answer.{GivesFault, GivesLists};
ghost use Rattle.psy_script.specs.Faults.{HasManyLines, IsFirst};
ghost use Rattle.psy_script.specs.Inputs.{AreListsOf, inputs_judge, listing_fault, listing_in, listing_of, listings, lists_in};
ghost use Rattle.psy_text.specs.Words.{words_of, value_of};
ghost use Rattle.psy_script.specs.Numbers.{all_some, fits_32};
ghost use Rattle.psy_script.specs.declared.fault.LineKind.{LineKind as Kind};

use crate::fault::{LineKind, TextFault};
use crate::lines::has_many_lines;
use crate::names::Names;
use psy_base::{Items, Memory};
use psy_history::{Inputs, no_lists};
use psy_text::line::{cut_line, is_skipped};
use psy_text::word::{cut_word, value};
use psy_tree::Unit;
use std::alloc::Global;
use std::marker::Model;

/// The lists of values that a text states for the inputs of a program, line by line. Its errors are the first line that is at fault, more
/// than 10,000 lines, and want of memory.
pub fn read_inputs(alloc: Global, text: &[u8], unit: &Unit) -> Result<Inputs, TextFault>
    requires { IsBare unit.now }
    // The lists are those of the text, which has no fault; and they are inputs of the program.
    ensures lists { IfOk result (λ inputs. AreListsOf unit.now text.now inputs.lists) }
    ensures inputs { IfOk result (λ inputs. AreInputs unit.now inputs.lists) }

    // What is refused is there.
    ensures fault { (kind : Kind) (line : ℕ) → result ≡ Err (TextFault.Line kind line) → IsFirst (inputs_judge unit.now) text.now kind line }
    ensures lines { result ≡ Err TextFault.Lines → HasManyLines text.now }

    // What the text states is answered, and so is what is wrong with it, but for want of memory.
    ensures all_lists { (lists : List (List ℤ)) → AreListsOf unit.now text.now lists → GivesLists result lists }
    ensures all_faults { (kind : Kind) (line : ℕ) → IsFirst (inputs_judge unit.now) text.now kind line → GivesFault result (TextFault.Line kind line) }
    ensures all_lines { HasManyLines text.now → GivesFault result TextFault.Lines }
{
    stated_lists(alloc, text, unit)
}

// The lists that a text states, or the first fault that is found.
fn stated_lists(alloc: Global, text: &[u8], unit: &Unit) -> Result<Inputs, TextFault>
    requires { IsBare unit.now }
    // The lists are those of the text, which has no fault; and they are inputs of the program.
    ensures lists { IfOk result (λ inputs. AreListsOf unit.now text.now inputs.lists) }
    ensures inputs { IfOk result (λ inputs. AreInputs unit.now inputs.lists) }

    // What is refused is there.
    ensures fault { (kind : Kind) (line : ℕ) → result ≡ Err (TextFault.Line kind line) → IsFirst (inputs_judge unit.now) text.now kind line }
    ensures lines { result ≡ Err TextFault.Lines → HasManyLines text.now }
{
    if has_many_lines(text) {
        return Err(TextFault::Lines);
    }
    let names = Names::of_variables(alloc, unit)?;
    let mut lists = no_lists(alloc, unit)?.lists;
    let mut rest = text;
    let mut line = 0;
    while let Some(cut) = cut_line(rest) {
        rest = cut.rest;
        line += 1;
        if let Some(kind) = add_line(alloc, unit, &names, &mut lists, cut.front)? {
            return Err(TextFault::Line { kind, line });
        }
    }
    Ok(Inputs { lists })
}

// Adds what a line says to the lists of the lines before it; gives what is wrong with the line, if anything is.
fn add_line(
    alloc: Global,
    unit: &Unit,
    names: &Names,
    lists: &mut Items<Items<i32>>,
    line: &[u8],
) -> Result<Option<LineKind>, Memory>
    requires bare { IsBare unit.now }
    requires names { names.now ≡ map (λ v. v.name) unit.now.variables }
    ensures fault { IfOk result (λ fault. (before : List (List ℕ)) → lists.old ≡ lists_in unit.now before → fault ≡ inputs_judge unit.now before line.now) }
    ensures added { result ≡ Ok None → (before : List (List ℕ)) → lists.old ≡ lists_in unit.now before
        → lists.new ≡ lists_in unit.now (before ++ line.now ∷ []) }
{
    if is_skipped(line) {
        return Ok(None);
    }
    match listing_in(alloc, line)? {
        None => Ok(Some(LineKind::BadLine)),
        Some(said) => add(alloc, unit, names, lists, &said),
    }
}

// The same of what it says, where it says something.
fn add(
    alloc: Global,
    unit: &Unit,
    names: &Names,
    lists: &mut Items<Items<i32>>,
    said: &Listing<'_>,
) -> Result<Option<LineKind>, Memory>
    requires bare { IsBare unit.now }
    requires names { names.now ≡ map (λ v. v.name) unit.now.variables }
    ensures fault { IfOk result (λ fault. (before : List (List ℕ)) → lists.old ≡ lists_in unit.now before
        → fault ≡ listing_fault unit.now (listings before) (Some said.now)) }
    ensures added { result ≡ Ok None → (before : List (List ℕ)) (line : List ℕ) → lists.old ≡ lists_in unit.now before → listing_of line ≡ Some said.now
        → lists.new ≡ lists_in unit.now (before ++ line ∷ []) }
{
    let Some(input) = input(alloc, unit, names, said.name)? else {
        return Ok(Some(LineKind::NoSuchName));
    };
    if has_values(lists, input) {
        return Ok(Some(LineKind::Again));
    }
    let Some(values) = narrowed(alloc, said.values.as_slice())? else {
        return Ok(Some(LineKind::Range));
    };
    lists.set(input, values);
    Ok(None)
}

// The number of the input with a name.
fn input(alloc: Global, unit: &Unit, names: &Names, name: &[u8]) -> Result<Option<usize>, Memory>
    requires bare { IsBare unit.now }
    requires names { names.now ≡ map (λ v. v.name) unit.now.variables }
    ensures { IfOk result (λ input. input ≡ position (λ v. is_none v.owner && bytes_eq name.now v.name) unit.now.variables) }
{
    let Some(place) = names.place(alloc, name)? else {
        return Ok(None);
    };
    let place = place as usize;
    if unit.variables.as_slice()[place].owner.is_some() {
        return Ok(None);
    }
    Ok(Some(place))
}

// The list of this variable isn't empty.
fn has_values(lists: &Items<Items<i32>>, variable: usize) -> bool
    ensures { MatchBool result (slice_get lists.now variable ≢ Some []) (slice_get lists.now variable ≡ Some []) }
{
    match lists.get(variable) {
        Some(list) => !list.is_empty(),
        None => true,
    }
}

// The values, where each is one of 32 bits.
fn narrowed(alloc: Global, values: &[i64]) -> Result<Option<Items<i32>>, Memory>
    ensures { IfOk result (λ narrow. narrow ≡ (if list_all fits_32 values.now then Some values.now else None)) }
{
    let mut narrow = Items::new(alloc);
    for value in values {
        let Ok(value) = i32::try_from(*value) else {
            return Ok(None);
        };
        narrow.push(value)?;
    }
    Ok(Some(narrow))
}

// What a line says: an input has this list of values.
#[derive(Drop)]
struct Listing<'a> {
    name: &'a [u8],
    values: Items<i64>,
}

impl<'a> Model for Listing<'a> {
    ghost use Rattle.psy_script.specs.Inputs.{Listing};

    ghost Value = { Listing };

    ghost view = { λ l. record { name = l.name.now; values = l.values } };
}

// What a line says; none where it has no listed form.
fn listing_in(alloc: Global, line: &[u8]) -> Result<Option<Listing<'_>>, Memory>
    ensures { IfOk result (λ said. said ≡ listing_in (words_of line.now)) }
{
    let Some(name) = cut_word(line) else {
        return Ok(None);
    };
    match values_in(alloc, name.rest)? {
        Some(values) if !values.is_empty() => Ok(Some(Listing {
            name: name.front,
            values,
        })),
        _ => Ok(None),
    }
}

// The values that words are; none where one of them is no value.
fn values_in(alloc: Global, words: &[u8]) -> Result<Option<Items<i64>>, Memory>
    ensures { IfOk result (λ values. values ≡ all_some (map value_of (words_of words.now))) }
{
    let mut values = Items::new(alloc);
    let mut rest = words;
    while let Some(word) = cut_word(rest) {
        let Some(value) = value(word.front) else {
            return Ok(None);
        };
        values.push(value)?;
        rest = word.rest;
    }
    Ok(Some(values))
}
