//! The names that declarations, parameters and locals give, and the slots of locals.
ghost use Rattle.std.specs.Prelude.{◌≡◌, ◌+◌, ℕ, ◌^◌, ◌-◌, [], ◌∷◌, ◌++◌, map, min, length, slice_get, option_map, IfOk};
ghost use Rattle.std.specs.Option.{option_copied};
ghost use Rattle.psy_tree.specs.Scope as spec;
ghost use Rattle.psy_tree.specs.Scope.{slots_of, item_entries, slot_entries};
ghost use Rattle.psy_tree.specs.Stands.{width_of_slot};
ghost use Rattle.psy_rules.specs.Tables.{StandsFor, slot_names as names_of, as_slots};
ghost use Rattle.psy_tree.specs.Scope.{item_params, item_locals};

use crate::names::Names;
use psy_arith::Width;
use psy_base::Memory;
use psy_tree::{Found, Item, Local, Name};
use sqlite_items::at;
use std::alloc::Global;

/// The name that a declaration gives.
pub fn item_name(item: &Item) -> &Name
    ensures { result.now ≡ spec.item_name item.now }
{
    match item {
        Item::Clock { name, .. } => name,
        Item::Temporal { name, .. } => name,
        Item::Input { name, .. } => name,
        Item::Stream { name, .. } => name,
        Item::Function { name, .. } => name,
        Item::Agent { name, .. } => name,
    }
}

fn local_name(local: &Local) -> &Name
    ensures { result.now ≡ (spec.local_slot local.now).name }
{
    match local {
        Local::Scalar(_, name, _) => name,
        Local::Array(_, name, _) => name,
    }
}

fn params_of(item: &Item) -> &[Name]
    ensures { result.now ≡ item_params item.now }
{
    match item {
        Item::Function { params, .. } => params.as_slice(),
        _ => &[],
    }
}

pub fn locals_of(item: &Item) -> &[Local]
    ensures { result.now ≡ item_locals item.now }
{
    match item {
        Item::Function { locals, .. } => locals.as_slice(),
        Item::Agent { locals, .. } => locals.as_slice(),
        _ => &[],
    }
}

/// The names of the parameters, variables and arrays of an agent or function, in order.
pub fn slot_names(alloc: Global, item: &Item) -> Result<Vec<&Name>, Memory>
    ensures { IfOk result (λ v. map (λ n. n.now) v.items ≡ names_of (slots_of item.now)) }
{
    let mut names = Vec::new(alloc);
    for name in params_of(item) {
        names.push(name)?;
    }
    for local in locals_of(item) {
        names.push(local_name(local))?;
    }
    Ok(names)
}

/// How many parameters, variables and arrays it has.
pub fn slot_count(item: &Item) -> usize
    ensures { result ≡ min (length (slots_of item.now)) (2 ^ 64 - 1) }
{
    params_of(item).len().saturating_add(locals_of(item).len())
}

/// Whether slot `k` is an array; none where there is no such slot.
pub fn slot_array(item: &Item, k: usize) -> Option<bool>
    ensures { result ≡ option_map (λ s. s.array) (slice_get (slots_of item.now) k) }
{
    let params = params_of(item).len();
    if k < params {
        return Some(false);
    }
    local_array(at(locals_of(item), k - params))
}

fn local_array(local: Option<&Local>) -> Option<bool>
    ensures { result ≡ option_map (λ l. (spec.local_slot l).array) (option_copied local.entry) }
{
    match local {
        None => None,
        Some(Local::Scalar(_, _, _)) => Some(false),
        Some(Local::Array(_, _, _)) => Some(true),
    }
}

/// The type of slot `k`, `int` where there is no such slot.
pub fn slot_width(item: &Item, k: usize) -> Width
    ensures { result ≡ width_of_slot (slice_get (slots_of item.now) k) }
{
    let params = params_of(item).len();
    if k < params {
        return Width::W32;
    }
    local_width(at(locals_of(item), k - params))
}

fn local_width(local: Option<&Local>) -> Width
    ensures { result ≡ width_of_slot (option_map spec.local_slot (option_copied local.entry)) }
{
    match local {
        None => Width::W32,
        Some(Local::Scalar(width, _, _)) => *width,
        Some(Local::Array(width, _, _)) => *width,
    }
}

/// What the names of the program's declarations stand for.
pub fn item_table(alloc: Global, items: &[Item]) -> Result<Names, Memory>
    ensures { IfOk result (λ table. StandsFor table (item_entries 0 items.now)) }
{
    let mut table = Names::new(alloc);
    for (k, item) in items.iter().enumerate() {
        table.add(alloc, &item_name(item).text, Found::Item(k))?;
    }
    Ok(table)
}

/// What the names of an agent or function stand for.
pub fn slot_table(alloc: Global, names: &[&Name]) -> Result<Names, Memory>
    ensures { IfOk result (λ table. StandsFor table (slot_entries 0 (as_slots (map (λ n. n.now) names.now)))) }
{
    let mut table = Names::new(alloc);
    for (k, name) in names.iter().enumerate() {
        table.add(alloc, &name.text, Found::Slot(k))?;
    }
    Ok(table)
}
