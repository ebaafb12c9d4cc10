//! A plan of a program that has one input.
ghost use Rattle.std.specs.Prelude.{◌≡◌, ◌∷◌, [], IfSome, length};
ghost use Rattle.psy_dates.specs.Plans.{IsPlan};
ghost use Rattle.psysnap_trials.specs.Input.{input, plan, tenth};

use crate::made::alone;
use psy_base::{Items, Sizes, Text};
use psy_clock::Clock;
use psy_code::Code;
use psy_dates::Plan;
use psy_tree::{Unit, VarDecl};
use std::alloc::Global;

// A name of one letter.
fn name(alloc: Global, letter: u8) -> Option<Text>
    ensures { IfSome result (λ name. name ≡ letter ∷ []) }
{
    Text::from_bytes(alloc, &[letter]).ok()
}

fn tenth() -> Clock
    ensures { result ≡ tenth }
{
    Clock {
        period: 10,
        first: 0,
    }
}

fn input(alloc: Global) -> Option<VarDecl>
    ensures { IfSome result (λ it. it ≡ input) }
{
    Some(VarDecl {
        name: name(alloc, b'v')?,
        owner: None,
        clock: 0,
        init: -2,
        depth: 2,
    })
}

fn unit(alloc: Global) -> Option<Unit>
    ensures { IfSome result (λ unit. unit ≡ plan.unit) }
{
    Some(Unit {
        quantum: 1,
        clocks: alone(alloc, tenth())?,
        clock_names: alone(alloc, name(alloc, b'c')?)?,
        variables: alone(alloc, input(alloc)?)?,
        streams: Items::new(alloc),
        functions: Items::new(alloc),
        agents: Items::new(alloc),
    })
}

fn sizes(alloc: Global) -> Option<Sizes>
    ensures { IfSome result (λ sizes. sizes ≡ plan.sizes) }
{
    Some(Sizes {
        rings: alone(alloc, 2)?,
        queues: Items::new(alloc),
        outboxes: Items::new(alloc),
    })
}

fn made(alloc: Global) -> Option<Plan>
    ensures { IfSome result (λ it. it ≡ plan) }
{
    Some(Plan {
        unit: unit(alloc)?,
        code: Code {
            instrs: Items::new(alloc),
            agents: Items::new(alloc),
            functions: Items::new(alloc),
        },
        nexts: Items::new(alloc),
        sizes: sizes(alloc)?,
        until: 20,
    })
}

/// The plan of a program that has one input, by dates of every tenth tick up to date 20. The ring of the input holds two values; its first is -2.
pub fn plan_of_an_input(alloc: Global) -> Option<Plan>
    ensures plan { IfSome result IsPlan }
    ensures agents { IfSome result (λ plan. length plan.unit.agents ≡ 0) }
{
    made(alloc)
}
