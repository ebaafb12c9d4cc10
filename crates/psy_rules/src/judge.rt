//! The faults of a program's declarations.

ghost use Rattle.std.specs.Prelude.{◌≡◌, ◌+◌, ◌≤◌, ◌^◌, ◌||◌, ◌++◌, ℕ, Bool, false, List, Some, None, map, take, length, slice_get, IfOk};
ghost use Rattle.std.specs.Prelude.{OnOk, is_some};
ghost use Rattle.std.specs.List.{list_any};
ghost use Rattle.std.specs.Str.{bytes_eq};
ghost use Rattle.psy_tree.specs.Scope.{Site, slots_of, own_slots, own_item, item_entries, first_named, stands_globally};
ghost use Rattle.psy_tree.specs.Places as places;
ghost use Rattle.psy_tree.specs.Rules.{AreClocks};
ghost use Rattle.psy_tree.specs.Rules as rules;
ghost use Rattle.psy_rules.specs.Tables.{StandsFor, HasInner, is_inner, slot_names as names_of};
ghost use Rattle.psy_rules.specs.Sites.{site_of, IsScope};
ghost use Rattle.psy_rules.specs.Judged.{judged, judged_all, judged_sited};
ghost use Rattle.psy_rules.specs.Finding as finding;
ghost use Rattle.psy_tree.specs.Scope.{item_locals};
ghost use Rattle.psy_rules.specs.Verdict.{Verdict};
ghost use Rattle.psy_rules.specs.Heads.{after_name, name_places};

use crate::clocks::{is_bad_clock, sound};
use crate::least::Least;
use crate::names::Names;
use crate::scope::{Scope, is_up_to};
use crate::slots::{item_name, slot_names, slot_table};
use crate::uses::{judge_range, judge_use};
use crate::walk::walk_stmts;
use psy_arith::Width;
use psy_base::{Memory, limits};
use psy_clock::Clock;
use psy_tree::{Asks, Found, Init, Item, Lit, Local, Name, Raw, RuleKind};
use std::alloc::Global;

/// A declaration of number less than `limit`.
fn item_below(found: Option<Found>, limit: usize) -> bool
    ensures { result ≡ finding.item_below limit found }
{
    match found {
        Some(Found::Item(k)) => k < limit,
        _ => false,
    }
}

fn slot_below(found: Option<Found>, limit: usize) -> bool
    ensures { result ≡ finding.slot_below limit found }
{
    match found {
        Some(Found::Slot(k)) => k < limit,
        _ => false,
    }
}

/// Notes whether a clock's shift or its period is at fault.
fn judge_clock(
    scope: &Scope<'_>,
    known: &[Option<Clock>],
    item: &Item,
    name: &Name,
    least: &mut Least,
)
    requires scope { IsScope scope.now }
    requires known { known.now ≡ rules.sound_clocks scope.now.items.now scope.now.at }
    requires clocks { AreClocks known.now }
    requires own { slice_get scope.now.items.now scope.now.at ≡ Some item.now }
    ensures { least.new.fault ≡ judged (site_of scope.now) (places.Derives name.now) least.old.fault }
{
    least.note(
        is_bad_clock(scope.globals, known, item),
        RuleKind::BadClock,
        name.token,
    );
}

/// Notes what is wrong with a declaration's head, its name aside.
#[tactic(auto, using(crate::proofs::Judging::judged_all_append))]
fn judge_head(scope: &Scope<'_>, known: &[Option<Clock>], item: &Item, least: &mut Least)
    requires scope { IsScope scope.now }
    requires known { known.now ≡ rules.sound_clocks scope.now.items.now scope.now.at }
    requires clocks { AreClocks known.now }
    requires own { slice_get scope.now.items.now scope.now.at ≡ Some item.now }
    ensures { least.new.fault ≡ judged_all (site_of scope.now) (after_name item.now) least.old.fault }
{
    match item {
        Item::Clock { name, parent, .. } => {
            judge_clock(scope, known, item, name, least);
            judge_parent(scope, parent, least);
        }
        Item::Temporal {
            owner,
            clock,
            depth,
            ..
        } => {
            judge_use(scope, owner, Asks::Agent, least);
            judge_use(scope, clock, Asks::Clock, least);
            judge_range(*depth, 1, limits::DEPTH, least);
        }
        Item::Input { clock, depth, .. } => {
            judge_use(scope, clock, Asks::Clock, least);
            judge_range(*depth, 1, limits::DEPTH, least);
        }
        Item::Stream {
            receiver,
            keep,
            clock,
            ..
        } => {
            judge_use(scope, receiver, Asks::Agent, least);
            judge_range(*keep, 1, limits::KEEP, least);
            judge_use(scope, clock, Asks::Clock, least);
        }
        Item::Function { .. } => {}
        Item::Agent {
            clock,
            processor,
            budget,
            ..
        } => {
            judge_use(scope, clock, Asks::Clock, least);
            judge_processor(*processor, least);
            judge_range(*budget, 1, limits::BUDGET, least);
        }
    }
}

fn judge_parent(scope: &Scope<'_>, parent: &Option<Name>, least: &mut Least)
    requires { IsScope scope.now }
    ensures { least.new.fault ≡ judged_all (site_of scope.now) (places.parent_places parent.now) least.old.fault }
{
    if let Some(parent) = parent {
        judge_use(scope, parent, Asks::Parent, least);
    }
}

fn judge_processor(processor: Option<Lit>, least: &mut Least)
    ensures { (site : Site) → least.new.fault ≡ judged_all site (places.processor_places processor) least.old.fault }
{
    if let Some(processor) = processor {
        judge_range(processor, 0, limits::PROCESSORS - 1, least);
    }
}

/// Notes the names inside a declaration that stand for something else already.
fn judge_slots(scope: &Scope<'_>, names: &[&Name], least: &mut Least)
    requires scope { IsScope scope.now }
    ensures { least.new.fault ≡ judged_all (site_of scope.now) (name_places 0 (map (λ n. n.now) names.now)) least.old.fault }
{
    for (k, name) in names.iter().enumerate() {
        judge_slot(scope, k, name, least);
    }
}

/// A declaration up to this one has the name, or one of the first `k` inside it.
fn is_slot_twice(scope: &Scope<'_>, k: usize, name: &Name) -> bool
    requires { IsScope scope.now }
    ensures { result ≡ (finding.up_to scope.now.at (stands_globally scope.now.items.now name.now.text)
        || finding.slot_below k (first_named name.now.text scope.now.slots.now)) }
{
    is_up_to(scope.global(&name.text), scope.at) || slot_below(scope.slots.first(&name.text), k)
}

fn judge_slot(scope: &Scope<'_>, k: usize, name: &Name, least: &mut Least)
    requires scope { IsScope scope.now }
    ensures { least.new.fault ≡ judged (site_of scope.now) (places.NamesSlot k name.now) least.old.fault }
{
    least.note(is_slot_twice(scope, k, name), RuleKind::Twice, name.token);
}

/// Notes the first values and the numbers of cells that are outside their range.
fn judge_locals(locals: &[Local], least: &mut Least)
    ensures { (site : Site) → least.new.fault ≡ judged_all site (map places.local_place locals.now) least.old.fault }
{
    for local in locals {
        judge_local(local, least);
    }
}

fn judge_local(local: &Local, least: &mut Least)
    ensures { (site : Site) → least.new.fault ≡ judged site (places.local_place local.now) least.old.fault }
{
    match local {
        Local::Scalar(width, _, init) => judge_first(*width, *init, least),
        Local::Array(_, _, cells) => judge_range(*cells, 1, limits::CELLS, least),
    }
}

/// Notes whether a first value is outside the range of its type.
#[tactic(auto, unfolding(crate::specs::Judged::judged))]
fn judge_first(width: Width, init: Init, least: &mut Least)
    ensures { (site : Site) → least.new.fault
        ≡ judged site (places.Ranges init.value 0 (places.greatest_first width init.minus)) least.old.fault }
{
    least.note(
        greatest_first(width, init.minus) < u64::from(init.value.value),
        RuleKind::BadNumber,
        init.value.token,
    );
}

/// The greatest number that may stand in a first value of a type: behind a minus one more than without.
fn greatest_first(width: Width, minus: bool) -> u64
    ensures { result ≡ places.greatest_first width minus }
{
    let beyond = 1u64 << (width.bits() - 1);
    if minus { beyond } else { beyond - 1 }
}

#[tactic(auto, unfolding(crate::specs::Judged::judged))]
fn judge_paths(token: u32, quiet: bool, least: &mut Least)
    ensures { (site : Site) → least.new.fault ≡ judged site (places.HasBody token quiet) least.old.fault }
{
    least.note(quiet, RuleKind::NoAdvance, token);
}

/// Notes what is wrong inside a declaration.
#[tactic(auto, using(crate::proofs::Judging::judged_all_append))]
fn judge_body(scope: &Scope<'_>, item: &Item, least: &mut Least)
    requires { IsScope scope.now }
    ensures { least.new.fault ≡ judged_all (site_of scope.now) (places.body_places item.now) least.old.fault }
{
    match item {
        Item::Function { locals, stmts, .. } => {
            judge_locals(locals.as_slice(), least);
            let _paths = walk_stmts(scope, stmts.as_slice(), least);
        }
        Item::Agent {
            locals,
            body_token,
            stmts,
            ..
        } => {
            judge_locals(locals.as_slice(), least);
            let paths = walk_stmts(scope, stmts.as_slice(), least);
            judge_paths(*body_token, paths.quiet, least);
        }
        _ => {}
    }
}

/// Adds the names inside a declaration to those that stand inside one.
fn add_inner(alloc: Global, inner: &mut Names, names: &[&Name]) -> Result<(), Memory>
    ensures { OnOk result ((text : List ℕ) → is_some (first_named text inner.new)
        ≡ (is_some (first_named text inner.old) || list_any (λ n. bytes_eq text n.now.text) names.now)) }
{
    for name in names {
        inner.add(alloc, &name.text, Found::Slot(0))?;
    }
    Ok(())
}

/// A declaration above has the name, or one inside those above.
fn is_item_twice(scope: &Scope<'_>, inner: &Names, name: &Name) -> bool
    ensures { result ≡ (finding.item_below scope.now.at (first_named name.now.text scope.now.globals.now) || is_some (first_named name.now.text inner.now)) }
{
    item_below(scope.globals.first(&name.text), scope.at) || inner.first(&name.text).is_some()
}

/// Notes a declaration's name that stands for something else already.
fn judge_name(scope: &Scope<'_>, inner: &Names, name: &Name, least: &mut Least)
    requires scope { IsScope scope.now }
    requires inner { HasInner inner.now (take scope.now.at scope.now.items.now) }
    ensures { least.new.fault ≡ judged (site_of scope.now) (places.NamesItem name.now) least.old.fault }
{
    least.note(
        is_item_twice(scope, inner, name),
        RuleKind::Twice,
        name.token,
    );
}

/// Notes what is wrong with a declaration, given the scope of its head, the sound clocks above it and the
/// names inside those above it.
fn judge_item(
    alloc: Global,
    head: &Scope<'_>,
    known: &[Option<Clock>],
    inner: &mut Names,
    item: &Item,
    least: &mut Least,
) -> Result<(), Memory>
    requires scope { IsScope head.now }
    requires outside { head.now.inside ≡ false }
    requires known { known.now ≡ rules.sound_clocks head.now.items.now head.now.at }
    requires clocks { AreClocks known.now }
    requires own { slice_get head.now.items.now head.now.at ≡ Some item.now }
    requires inner { HasInner inner.old (take head.now.at head.now.items.now) }
    ensures least { OnOk result (least.new.fault ≡ judged_sited (places.item_places head.now.items.now head.now.at item.now) least.old.fault) }
    ensures inner { OnOk result (HasInner inner.new (take (head.now.at + 1) head.now.items.now)) }
{
    judge_name(head, inner, item_name(item), least);
    judge_head(head, known, item, least);
    let names = slot_names(alloc, item)?;
    let table = slot_table(alloc, names.as_slice())?;
    let body = Scope {
        inside: true,
        slots: &table,
        ..*head
    };
    judge_slots(&body, names.as_slice(), least);
    judge_body(&body, item, least);
    add_inner(alloc, inner, names.as_slice())?;
    Ok(())
}

/// What judging a program gives: the least of its faults, and by declaration the sound clock that it is.
#[derive(Drop)]
pub struct Judged {
    pub least: Least,
    pub clocks: Vec<Option<Clock>>,
}

/// Judges a whole program.
pub fn judge(alloc: Global, raw: &Raw, globals: &Names) -> Result<Judged, Memory>
    requires { StandsFor globals.now (item_entries 0 raw.now.items) }
    ensures least { IfOk result (λ j. Verdict raw.now j.least.fault) }
    ensures clocks { IfOk result (λ j. j.clocks.items ≡ rules.sound_clocks raw.now.items (length raw.now.items)) }
{
    let items = raw.items.as_slice();
    let mut least = Least { fault: None };
    judge_range(raw.quantum, 1, limits::QUANTUM, &mut least);
    let mut clocks: Vec<Option<Clock>> = Vec::new(alloc);
    let mut inner = Names::new(alloc);
    let none = Names::new(alloc);
    for (at, item) in items.iter().enumerate() {
        let head = Scope {
            items,
            at,
            inside: false,
            globals,
            slots: &none,
        };
        judge_item(
            alloc,
            &head,
            clocks.as_slice(),
            &mut inner,
            item,
            &mut least,
        )?;
        let clock = sound(globals, clocks.as_slice(), item);
        clocks.push(clock)?;
    }
    Ok(Judged { least, clocks })
}
