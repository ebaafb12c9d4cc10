//! The text of what was kept of a run.
ghost use Rattle.std.specs.Prelude.{◌≡◌, ◌==◌, ◌++◌, [], ◌∷◌, filter, length, IfOk, OnOk};
ghost use Rattle.std.specs.List.{flat_map, range_with_len};
ghost use Rattle.psy_audit.specs.Spelled.{line_told};
ghost use Rattle.psy_audit.specs.declared.said.Act.{Act as Action};
ghost use Rattle.psy_audit.specs.declared.said.Look.{Look as Sight};
ghost use Rattle.psy_audit.specs.declared.said.Publication.{Publication as Told};
ghost use Rattle.psy_audit.specs.declared.said.Said.TheVariants.{Acted, Published, Served, Looked};
ghost use Rattle.psy_audit.specs.declared.said.Segment.{Segment as Stretch};
ghost use Rattle.psy_collect.specs.Keeping.{acts_text, kept_text, looks_text, publications_text, segments_text};
ghost use Rattle.psy_history.specs.Processors.{processors};
ghost use Rattle.psy_meaning.specs.Units.{IsBare};

use crate::kept::Kept;
use crate::lines::{add_act, add_end, add_look, add_publication, add_segment};
use psy_audit::{Act, Look, Publication, Segment};
use psy_base::Memory;
use psy_history::processors_of;
use psy_tree::Unit;
use std::alloc::Global;

/// The text of what was kept: all actions by agent, publications by variable, stretches by processor and looks by agent, and the end.
pub fn text_of(alloc: Global, unit: &Unit, kept: &Kept, until: u64) -> Result<Vec<u8>, Memory>
    requires bare { IsBare unit.now }
    ensures { IfOk result (λ text. text.items ≡ kept_text unit.now until kept.now) }
{
    let mut out = Vec::new(alloc);
    add_all_acts(&mut out, unit, kept.acts.as_slice())?;
    add_all_publications(&mut out, unit, kept.publications.as_slice())?;
    add_all_segments(&mut out, unit, kept.segments.as_slice())?;
    add_all_looks(&mut out, unit, kept.looks.as_slice())?;
    add_end(&mut out, until)?;
    Ok(out)
}

// Adds the lines of all acts, agent by agent.
#[tactic(auto, using(crate::proofs::Rows::added))]
fn add_all_acts(out: &mut Vec<u8>, unit: &Unit, acts: &[Act]) -> Result<(), Memory>
    requires bare { IsBare unit.now }
    ensures { OnOk result (out.new.items ≡ out.old.items ++ flat_map (acts_text unit.now acts.now) (range_with_len 0 (length unit.now.agents))) }
{
    let count = unit.agents.len() as u32;
    'agents: for agent in 0..count {
        add_acts(out, unit, acts, agent)?;
    }
    Ok(())
}

// Adds the lines of the actions of an agent.
#[tactic(auto, using(crate::proofs::Rows::added_of))]
fn add_acts(out: &mut Vec<u8>, unit: &Unit, acts: &[Act], agent: u32) -> Result<(), Memory>
    ensures { OnOk result (out.new.items ≡ out.old.items ++ acts_text unit.now acts.now agent) }
{
    'acts: for act in acts {
        keep_act(out, unit, act, agent)?;
    }
    Ok(())
}

fn keep_act(out: &mut Vec<u8>, unit: &Unit, act: &Act, agent: u32) -> Result<(), Memory>
    ensures { OnOk result (out.new.items ≡ out.old.items ++ acts_text unit.now (act.now ∷ []) agent) }
{
    if act.agent == agent {
        add_act(out, unit, act)?;
    }
    Ok(())
}

// Adds the lines of all publications, variable by variable.
#[tactic(auto, using(crate::proofs::Rows::added))]
fn add_all_publications(
    out: &mut Vec<u8>,
    unit: &Unit,
    publications: &[Publication],
) -> Result<(), Memory>
    requires bare { IsBare unit.now }
    ensures { OnOk result (out.new.items ≡ out.old.items
        ++ flat_map (publications_text unit.now publications.now) (range_with_len 0 (length unit.now.variables))) }
{
    let count = unit.variables.len() as u32;
    'variables: for variable in 0..count {
        add_publications(out, unit, publications, variable)?;
    }
    Ok(())
}

// Adds the lines of the publications of a variable.
#[tactic(auto, using(crate::proofs::Rows::added_of))]
fn add_publications(
    out: &mut Vec<u8>,
    unit: &Unit,
    publications: &[Publication],
    variable: u32,
) -> Result<(), Memory>
    ensures { OnOk result (out.new.items ≡ out.old.items ++ publications_text unit.now publications.now variable) }
{
    'publications: for publication in publications {
        keep_publication(out, unit, publication, variable)?;
    }
    Ok(())
}

fn keep_publication(
    out: &mut Vec<u8>,
    unit: &Unit,
    publication: &Publication,
    variable: u32,
) -> Result<(), Memory>
    ensures { OnOk result (out.new.items ≡ out.old.items ++ publications_text unit.now (publication.now ∷ []) variable) }
{
    if publication.variable == variable {
        add_publication(out, unit, publication)?;
    }
    Ok(())
}

// Adds the lines of all segments, processor by processor.
#[tactic(auto, using(crate::proofs::Rows::added))]
fn add_all_segments(out: &mut Vec<u8>, unit: &Unit, segments: &[Segment]) -> Result<(), Memory>
    requires bare { IsBare unit.now }
    ensures { OnOk result (out.new.items ≡ out.old.items ++ flat_map (segments_text unit.now segments.now) (range_with_len 0 (processors unit.now))) }
{
    let count = processors_of(unit);
    'processors: for processor in 0..count {
        add_segments(out, unit, segments, processor)?;
    }
    Ok(())
}

// Adds the lines of the stretches of a processor.
#[tactic(auto, using(crate::proofs::Rows::added_of))]
fn add_segments(
    out: &mut Vec<u8>,
    unit: &Unit,
    segments: &[Segment],
    processor: u32,
) -> Result<(), Memory>
    ensures { OnOk result (out.new.items ≡ out.old.items ++ segments_text unit.now segments.now processor) }
{
    'segments: for segment in segments {
        keep_segment(out, unit, segment, processor)?;
    }
    Ok(())
}

fn keep_segment(
    out: &mut Vec<u8>,
    unit: &Unit,
    segment: &Segment,
    processor: u32,
) -> Result<(), Memory>
    ensures { OnOk result (out.new.items ≡ out.old.items ++ segments_text unit.now (segment.now ∷ []) processor) }
{
    if segment.processor == u64::from(processor) {
        add_segment(out, unit, segment)?;
    }
    Ok(())
}

// Adds the lines of all looks, agent by agent.
#[tactic(auto, using(crate::proofs::Rows::added))]
fn add_all_looks(out: &mut Vec<u8>, unit: &Unit, looks: &[Look]) -> Result<(), Memory>
    requires bare { IsBare unit.now }
    ensures { OnOk result (out.new.items ≡ out.old.items ++ flat_map (looks_text unit.now looks.now) (range_with_len 0 (length unit.now.agents))) }
{
    let count = unit.agents.len() as u32;
    'agents: for agent in 0..count {
        add_looks(out, unit, looks, agent)?;
    }
    Ok(())
}

// Adds the lines of the looks of an agent.
#[tactic(auto, using(crate::proofs::Rows::added_of))]
fn add_looks(out: &mut Vec<u8>, unit: &Unit, looks: &[Look], agent: u32) -> Result<(), Memory>
    ensures { OnOk result (out.new.items ≡ out.old.items ++ looks_text unit.now looks.now agent) }
{
    'looks: for look in looks {
        keep_look(out, unit, look, agent)?;
    }
    Ok(())
}

fn keep_look(out: &mut Vec<u8>, unit: &Unit, look: &Look, agent: u32) -> Result<(), Memory>
    ensures { OnOk result (out.new.items ≡ out.old.items ++ looks_text unit.now (look.now ∷ []) agent) }
{
    if look.agent == agent {
        add_look(out, unit, look)?;
    }
    Ok(())
}
