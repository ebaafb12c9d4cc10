//! Where a name is used.

ghost use Rattle.std.specs.Prelude.{◌≡◌, ◌||◌, ◌&&◌, not};
ghost use Rattle.std.specs.Option.{option_copied};
ghost use Rattle.std.specs.Option as option;
ghost use Rattle.psy_tree.specs.Rules as rules;
ghost use Rattle.psy_tree.specs.Scope.{Site, item_at};
ghost use Rattle.psy_tree.specs.Places as places;
ghost use Rattle.psy_rules.specs.Sites.{site_of, IsScope};
ghost use Rattle.psy_rules.specs.Judged.{judged};

use crate::least::Least;
use crate::scope::{
    Scope, declared_depth, is_agent, is_clock, is_function, is_stream, is_temporal,
};
use psy_tree::{Asks, Found, Item, Lit, Name, RuleKind};
use sqlite_items::at;

fn has_params(item: Option<&Item>, n: usize) -> bool
    ensures { result ≡ rules.has_params n (option_copied item.entry) }
{
    match item {
        Some(Item::Function { params, .. }) => params.len() == n,
        _ => false,
    }
}

/// What a name stands for is of the kind that its place asks for.
fn suits(scope: &Scope<'_>, what: Asks, found: Found) -> bool
    ensures { result ≡ rules.suits_by (site_of scope.now) what found }
{
    match found {
        Found::Item(k) => suits_item(scope, what, k),
        Found::Slot(k) => suits_slot(scope, what, k),
    }
}

fn suits_item(scope: &Scope<'_>, what: Asks, k: usize) -> bool
    ensures { result ≡ rules.suits_by (site_of scope.now) what (Found.Item k) }
{
    let item = at(scope.items, k);
    match what {
        Asks::Clock | Asks::Parent => is_clock(item),
        Asks::Agent => is_agent(item),
        Asks::Value => scope.in_agent() && is_temporal(item),
        Asks::Cell => false,
        Asks::Past => declared_depth(item).is_some(),
        Asks::Target | Asks::Messages => is_stream(item),
        Asks::Call(n) => has_params(item, n),
    }
}

fn suits_slot(scope: &Scope<'_>, what: Asks, k: usize) -> bool
    ensures { result ≡ rules.suits_by (site_of scope.now) what (Found.Slot k) }
{
    match what {
        Asks::Value => scope.slot_is_array(false, k),
        Asks::Cell => scope.in_agent() && scope.slot_is_array(true, k),
        _ => false,
    }
}

/// The name stands for an agent, and for another than the one here.
fn other_agent(scope: &Scope<'_>, found: Option<Found>) -> bool
    ensures { result ≡ rules.other_agent (site_of scope.now) found }
{
    match found {
        Some(Found::Item(k)) => is_agent(at(scope.items, k)) && !(k == scope.at),
        _ => false,
    }
}

fn owner_elsewhere(scope: &Scope<'_>, item: Option<&Item>) -> bool
    requires { IsScope scope.now }
    ensures { result ≡ rules.owner_elsewhere (site_of scope.now) (option_copied item.entry) }
{
    match item {
        Some(Item::Temporal { owner, .. }) => other_agent(scope, scope.global(&owner.text)),
        _ => false,
    }
}

fn receiver_elsewhere(scope: &Scope<'_>, item: Option<&Item>) -> bool
    requires { IsScope scope.now }
    ensures { result ≡ rules.receiver_elsewhere (site_of scope.now) (option_copied item.entry) }
{
    match item {
        Some(Item::Stream { receiver, .. }) => other_agent(scope, scope.global(&receiver.text)),
        _ => false,
    }
}

/// A clock that doesn't stand above.
fn clock_below(scope: &Scope<'_>, found: Option<Found>) -> bool
    ensures { result ≡ rules.below (site_of scope.now) found }
{
    match found {
        Some(Found::Item(k)) => is_clock(at(scope.items, k)) && scope.at <= k,
        _ => false,
    }
}

/// A function that doesn't stand above.
fn function_below(scope: &Scope<'_>, found: Option<Found>) -> bool
    ensures { result ≡ rules.function_from (site_of scope.now) found }
{
    match found {
        Some(Found::Item(k)) => is_function(at(scope.items, k)) && scope.at <= k,
        _ => false,
    }
}

fn is_parent(what: Asks) -> bool
    ensures { result ≡ rules.is_parent what }
{
    matches!(what, Asks::Parent)
}

fn is_past(what: Asks) -> bool
    ensures { result ≡ rules.is_past what }
{
    matches!(what, Asks::Past)
}

fn is_messages(what: Asks) -> bool
    ensures { result ≡ rules.is_messages what }
{
    matches!(what, Asks::Messages)
}

fn is_call(what: Asks) -> bool
    ensures { result ≡ rules.is_call what }
{
    matches!(what, Asks::Call(_))
}

fn is_unknown(scope: &Scope<'_>, what: Asks, found: Option<Found>) -> bool
    ensures { result ≡ (option.is_none found || (rules.is_parent what && rules.below (site_of scope.now) found)) }
{
    found.is_none() || (is_parent(what) && clock_below(scope, found))
}

fn is_wrong_kind(scope: &Scope<'_>, what: Asks, found: Option<Found>) -> bool
    ensures { result ≡ rules.unsuited (site_of scope.now) what found }
{
    match found {
        None => false,
        Some(found) => !suits(scope, what, found),
    }
}

fn is_not_owner(scope: &Scope<'_>, what: Asks, found: Option<Found>) -> bool
    requires { IsScope scope.now }
    ensures { result ≡ (rules.in_agent (site_of scope.now) && not (rules.is_past what)
        && rules.owner_elsewhere (site_of scope.now) (item_at scope.now.items.now found)) }
{
    scope.in_agent() && !is_past(what) && owner_elsewhere(scope, scope.item(found))
}

fn is_not_receiver(scope: &Scope<'_>, what: Asks, found: Option<Found>) -> bool
    requires { IsScope scope.now }
    ensures { result ≡ (rules.in_agent (site_of scope.now) && rules.is_messages what
        && rules.receiver_elsewhere (site_of scope.now) (item_at scope.now.items.now found)) }
{
    scope.in_agent() && is_messages(what) && receiver_elsewhere(scope, scope.item(found))
}

fn is_calls_down(scope: &Scope<'_>, what: Asks, found: Option<Found>) -> bool
    ensures { result ≡ (rules.in_function (site_of scope.now) && rules.is_call what && rules.function_from (site_of scope.now) found) }
{
    scope.in_function() && is_call(what) && function_below(scope, found)
}

/// Notes what is wrong with the use of a name.
#[tactic(auto, unfolding(crate::specs::Judged::judged))]
pub fn judge_use(scope: &Scope<'_>, name: &Name, what: Asks, least: &mut Least)
    requires { IsScope scope.now }
    ensures { least.new.fault ≡ judged (site_of scope.now) (places.Uses name.now what) least.old.fault }
{
    let found = scope.find(&name.text);
    least.note(
        is_unknown(scope, what, found),
        RuleKind::Unknown,
        name.token,
    );
    least.note(
        is_wrong_kind(scope, what, found),
        RuleKind::WrongKind,
        name.token,
    );
    least.note(
        is_not_owner(scope, what, found),
        RuleKind::NotOwner,
        name.token,
    );
    least.note(
        is_not_receiver(scope, what, found),
        RuleKind::NotReceiver,
        name.token,
    );
    least.note(
        is_calls_down(scope, what, found),
        RuleKind::CallsDown,
        name.token,
    );
}

fn reaches(back: u32, depth: Option<u32>) -> bool
    ensures { result ≡ rules.reaches back depth }
{
    match depth {
        None => false,
        Some(depth) => depth <= back,
    }
}

/// Notes whether `past(name, back)` looks back too far.
#[tactic(auto, unfolding(crate::specs::Judged::judged))]
pub fn judge_back(scope: &Scope<'_>, name: &Name, back: Lit, least: &mut Least)
    requires { IsScope scope.now }
    ensures { least.new.fault ≡ judged (site_of scope.now) (places.LooksBack name.now back) least.old.fault }
{
    let found = scope.find(&name.text);
    let deep = reaches(back.value, declared_depth(scope.item(found)));
    least.note(deep, RuleKind::TooDeep, back.token);
}

/// Notes whether a number is outside its range.
#[tactic(auto, unfolding(crate::specs::Judged::judged))]
pub fn judge_range(number: Lit, low: u32, high: u32, least: &mut Least)
    ensures { (site : Site) → least.new.fault ≡ judged site (places.Ranges number low high) least.old.fault }
{
    least.note(
        number.value < low || high < number.value,
        RuleKind::BadNumber,
        number.token,
    );
}

/// Notes a word of agents that stands in a function.
#[tactic(auto, unfolding(crate::specs::Judged::judged))]
pub fn judge_act(scope: &Scope<'_>, token: u32, least: &mut Least)
    ensures { least.new.fault ≡ judged (site_of scope.now) (places.Acts token) least.old.fault }
{
    least.note(scope.in_function(), RuleKind::WrongKind, token);
}

/// Notes a `return` that stands in an agent.
#[tactic(auto, unfolding(crate::specs::Judged::judged))]
pub fn judge_return(scope: &Scope<'_>, token: u32, least: &mut Least)
    ensures { least.new.fault ≡ judged (site_of scope.now) (places.Returns token) least.old.fault }
{
    least.note(scope.in_agent(), RuleKind::WrongKind, token);
}
