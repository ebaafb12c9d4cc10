//! The parts of a processor's agents in the demand over a length.
ghost use Rattle.std.specs.Prelude.{◌≡◌, ◌==◌, ◌++◌, ◌<◌, if◌then◌else◌, OnOk, [], flat_map, length};
ghost use Rattle.psy_history.specs.Processors.{processor_at};
ghost use Rattle.psy_meaning.specs.Units.{IsBare};
ghost use Rattle.psy_report.specs.Agents.{agents_on, part_text};

use crate::measures::{Known, at, list_at};
use psy_feed::agent_name;
use psy_history::processor_of;
use psy_page::{Piece, fill};
use std::alloc::AllocError;

/// A length, and the processor whose demand over it is told.
#[derive(Clone, Copy)]
pub struct Load {
    pub within: u32,
    pub processor: u64,
}

/// A line of this form for each agent of a processor: its name, and its part of the demand over a length.
pub fn add_parts(out: &mut Vec<u8>, form: &[u8], known: Known, load: Load) -> Result<(), AllocError>
    requires bare { IsBare known.unit.now }
    ensures { OnOk result (out.new.items ≡ out.old.items
        ++ flat_map (part_text form.now known.entry.unit.now known.entry.measures.now load.within) (agents_on known.entry.unit.now load.processor)) }
{
    'agents: for agent in 0..known.unit.agents.len() as u32 {
        add_part(out, form, known, load, agent)?;
    }
    Ok(())
}

// The line of an agent that is of the processor.
fn add_part(
    out: &mut Vec<u8>,
    form: &[u8],
    known: Known,
    load: Load,
    agent: u32,
) -> Result<(), AllocError>
    requires known { agent < length known.unit.now.agents }
    ensures { OnOk result (out.new.items ≡ out.old.items ++ (if processor_at known.entry.unit.now agent == load.processor
        then part_text form.now known.entry.unit.now known.entry.measures.now load.within agent else [])) }
{
    if u64::from(processor_of(known.unit, agent)) != load.processor {
        return Ok(());
    }
    let name = Piece::Raw(agent_name(known.unit, agent));
    let part = at(list_at(&known.measures.lists, agent), load.within as usize);
    fill(out, form, &[name, Piece::Long(part)])
}
