//! What names stand for at a place.
ghost use Rattle.std.specs.Prelude.{◌≡◌, slice_get, option_map};
ghost use Rattle.std.specs.Option.{option_copied};
ghost use Rattle.psy_tree.specs.Scope.{stands_for, stands_globally, item_at, own_slots};
ghost use Rattle.psy_tree.specs.Rules as rules;
ghost use Rattle.psy_tree.specs.Stands.{width_of_slot, width_at};
ghost use Rattle.psy_rules.specs.Sites.{site_of, IsScope};
ghost use Rattle.psy_rules.specs.Finding.{up_to};

use crate::names::Names;
use crate::slots::{slot_array, slot_width};
use psy_arith::Width;
use psy_base::Text;
use psy_tree::{Found, Item};
use sqlite_items::at;

/// Where a place stands, and what names stand for there.
#[derive(Clone, Copy)]
pub struct Scope<'a> {
    /// The declarations of the program.
    pub items: &'a [Item],
    /// The number of the declaration that the place is in.
    pub at: usize,
    /// The place is inside its braces, and not in its head.
    pub inside: bool,
    pub globals: &'a Names,
    /// The names inside the declaration; none in its head.
    pub slots: &'a Names,
}

impl Scope<'_> {
    /// What the name stands for: the first of its declarations in reach.
    pub fn find(&self, name: &Text) -> Option<Found>
        requires { IsScope self.now }
        ensures { result ≡ stands_for (site_of self.now) name.now }
    {
        let global = self.globals.first(name);
        if is_up_to(global, self.at) {
            return global;
        }
        match self.slots.first(name) {
            Some(slot) => Some(slot),
            None => global,
        }
    }

    /// The declaration that was found, if it is one.
    pub fn item(&self, found: Option<Found>) -> Option<&Item>
        ensures { option_copied result ≡ item_at self.now.items.now found }
    {
        match found {
            Some(Found::Item(k)) => at(self.items, k),
            _ => None,
        }
    }

    /// The declaration that a name stands for among those of the program.
    pub fn global(&self, name: &Text) -> Option<Found>
        requires { IsScope self.now }
        ensures { result ≡ stands_globally self.now.items.now name.now }
    {
        self.globals.first(name)
    }

    pub fn in_agent(&self) -> bool
        ensures { result ≡ rules.in_agent (site_of self.now) }
    {
        self.inside && is_agent(at(self.items, self.at))
    }

    pub fn in_function(&self) -> bool
        ensures { result ≡ rules.in_function (site_of self.now) }
    {
        self.inside && is_function(at(self.items, self.at))
    }

    /// Whether slot `k` is an array; none where there is no such slot.
    pub fn slot_array(&self, k: usize) -> Option<bool>
        ensures { result ≡ option_map (λ s. s.array) (slice_get (own_slots (site_of self.now)) k) }
    {
        if !self.inside {
            return None;
        }
        match at(self.items, self.at) {
            Some(item) => slot_array(item, k),
            None => None,
        }
    }

    /// Slot `k` is there, and is a scalar or an array as told.
    pub fn slot_is_array(&self, array: bool, k: usize) -> bool
        ensures { result ≡ rules.slot_is_array array (slice_get (own_slots (site_of self.now)) k) }
    {
        self.slot_array(k) == Some(array)
    }

    /// The type of slot `k`, `int` where there is no such slot.
    fn slot_width(&self, k: usize) -> Width
        ensures { result ≡ width_of_slot (slice_get (own_slots (site_of self.now)) k) }
    {
        if !self.inside {
            return Width::W32;
        }
        match at(self.items, self.at) {
            Some(item) => slot_width(item, k),
            None => Width::W32,
        }
    }

    /// The type of what was found: a slot has its own, and a temporal variable is an `int`.
    pub fn width(&self, found: Option<Found>) -> Width
        ensures { result ≡ width_at (site_of self.now) found }
    {
        match found {
            Some(Found::Slot(k)) => self.slot_width(k),
            _ => Width::W32,
        }
    }
}

/// A declaration of the program up to number `at`.
pub fn is_up_to(found: Option<Found>, at: usize) -> bool
    ensures { result ≡ up_to at found }
{
    match found {
        Some(Found::Item(k)) => k <= at,
        _ => false,
    }
}

pub fn is_clock(item: Option<&Item>) -> bool
    ensures { result ≡ rules.is_clock (option_copied item.entry) }
{
    matches!(item, Some(Item::Clock { .. }))
}

pub fn is_agent(item: Option<&Item>) -> bool
    ensures { result ≡ rules.is_agent (option_copied item.entry) }
{
    matches!(item, Some(Item::Agent { .. }))
}

pub fn is_function(item: Option<&Item>) -> bool
    ensures { result ≡ rules.is_function (option_copied item.entry) }
{
    matches!(item, Some(Item::Function { .. }))
}

pub fn is_stream(item: Option<&Item>) -> bool
    ensures { result ≡ rules.is_stream (option_copied item.entry) }
{
    matches!(item, Some(Item::Stream { .. }))
}

pub fn is_temporal(item: Option<&Item>) -> bool
    ensures { result ≡ rules.is_temporal (option_copied item.entry) }
{
    matches!(item, Some(Item::Temporal { .. }))
}

/// The depth of a temporal variable or an input.
pub fn declared_depth(item: Option<&Item>) -> Option<u32>
    ensures { result ≡ rules.declared_depth (option_copied item.entry) }
{
    match item {
        Some(Item::Temporal { depth, .. }) => Some(depth.value),
        Some(Item::Input { depth, .. }) => Some(depth.value),
        _ => None,
    }
}
