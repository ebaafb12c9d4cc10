//! States that were made by hand.
ghost use Rattle.std.specs.Prelude.{◌≡◌, ◌<◌, ◌^◌, ◌∷◌, [], IfSome};

use psy_base::{Items, Message};
use psy_dates::{AgentOpening, Begun, NextAction, Opening, StreamOpening, VarOpening};
use std::alloc::Global;

/// A list of one.
pub fn alone<T: Drop>(alloc: Global, item: T) -> Option<Items<T>>
    ensures { IfSome result (λ items. items ≡ item ∷ []) }
{
    let mut items = Items::new(alloc);
    items.push(item).ok()?;
    Some(items)
}

/// A state of nothing at date 0.
pub fn nothing(alloc: Global) -> Opening
    ensures { result.date < 2 ^ 32 }
{
    Opening {
        date: 0,
        agents: Items::new(alloc),
        variables: Items::new(alloc),
        streams: Items::new(alloc),
    }
}

// An agent that starts its action 5 at point 2, with a cell of 3 and a copy of -1.
fn starting(alloc: Global) -> Option<AgentOpening> {
    let action = NextAction {
        number: 5,
        point: 2,
        cells: Items::from_slice(alloc, &[3]).ok()?,
    };
    Some(AgentOpening {
        begun: Some(Begun {
            copies: Items::from_slice(alloc, &[-1]).ok()?,
            action: Some(action),
        }),
        count: 1,
        slack: Some(12),
    })
}

// Two values, reached for one back.
fn published(alloc: Global) -> Option<VarOpening> {
    Some(VarOpening {
        values: Items::from_slice(alloc, &[4, -2]).ok()?,
        reach: Some(1),
    })
}

// A stream that holds a message.
fn holding(alloc: Global) -> Option<StreamOpening> {
    let message = Message {
        visible: 6,
        entry: 3,
        sender: 0,
        number: 258,
        expiry: 12,
        value: 9,
    };
    Some(StreamOpening {
        held: 2,
        messages: Items::from_slice(alloc, &[message]).ok()?,
    })
}

/// A state at date 7 with an agent, a variable and a stream.
pub fn something(alloc: Global) -> Option<Opening>
    ensures { IfSome result (λ state. state.date < 2 ^ 32) }
{
    Some(Opening {
        date: 7,
        agents: alone(alloc, starting(alloc)?)?,
        variables: alone(alloc, published(alloc)?)?,
        streams: alone(alloc, holding(alloc)?)?,
    })
}

/// A state at date 7 with a variable.
pub fn reached(alloc: Global) -> Option<Opening>
    ensures { IfSome result (λ state. state.date < 2 ^ 32) }
{
    Some(Opening {
        date: 7,
        agents: Items::new(alloc),
        variables: alone(alloc, published(alloc)?)?,
        streams: Items::new(alloc),
    })
}

/// A state at date 7 with an agent that hasn't begun.
pub fn waiting(alloc: Global) -> Option<Opening>
    ensures { IfSome result (λ state. state.date < 2 ^ 32) }
{
    let agent = AgentOpening {
        begun: None,
        count: 0,
        slack: None,
    };
    Some(Opening {
        date: 7,
        agents: alone(alloc, agent)?,
        variables: Items::new(alloc),
        streams: Items::new(alloc),
    })
}
