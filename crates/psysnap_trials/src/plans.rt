//! A plan of a program that has nothing.
ghost use Rattle.std.specs.Prelude.{◌≡◌, [], length};
ghost use Rattle.psy_dates.specs.Plans.{IsPlan};
ghost use Rattle.psysnap_trials.specs.Nothing.{plan};

use psy_base::{Items, Sizes};
use psy_code::Code;
use psy_dates::Plan;
use psy_tree::Unit;
use std::alloc::Global;

fn unit(alloc: Global) -> Unit
    ensures { result ≡ plan.unit }
{
    Unit {
        quantum: 1,
        clocks: Items::new(alloc),
        clock_names: Items::new(alloc),
        variables: Items::new(alloc),
        streams: Items::new(alloc),
        functions: Items::new(alloc),
        agents: Items::new(alloc),
    }
}

fn made(alloc: Global) -> Plan
    ensures { result ≡ plan }
{
    Plan {
        unit: unit(alloc),
        code: Code {
            instrs: Items::new(alloc),
            agents: Items::new(alloc),
            functions: Items::new(alloc),
        },
        nexts: Items::new(alloc),
        sizes: Sizes {
            rings: Items::new(alloc),
            queues: Items::new(alloc),
            outboxes: Items::new(alloc),
        },
        until: 0,
    }
}

/// The plan of a program that has nothing, up to date 0.
pub fn plan_of_nothing(alloc: Global) -> Plan
    ensures plan { IsPlan result }
    ensures agents { length result.unit.agents ≡ 0 }
{
    made(alloc)
}
