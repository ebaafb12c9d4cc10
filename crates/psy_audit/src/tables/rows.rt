//! What is found in a trace, sorted into rows: actions by agent, publications by variable, stretches by agent and by action.
ghost use Rattle.std.specs.Prelude.{◌≡◌, ◌==◌, ◌++◌, [], ◌∷◌, filter, map, IfOk, OnOk};
ghost use Rattle.std.specs.List.{range_with_len};
ghost use Rattle.psy_audit.specs.declared.said.Act.{Act as Action};
ghost use Rattle.psy_audit.specs.declared.said.Publication.{Publication as Told};
ghost use Rattle.psy_audit.specs.declared.said.Segment.{Segment as Stretch};

use crate::said::{Act, Publication, Segment};
use crate::stretches::Stretches;
use psy_base::{Items, Memory};
use std::alloc::Global;

/// By variable, its publications.
pub fn publications_by_variable(
    alloc: Global,
    publications: &[Publication],
    variables: u32,
) -> Result<Items<Items<Publication>>, Memory>
    ensures { IfOk result (λ rows. rows ≡ map (λ variable. filter (λ (p : Told). p.variable == variable) publications.now) (range_with_len 0 variables)) }
{
    let mut rows = Items::new(alloc);
    'variables: for variable in 0..variables {
        rows.push(publications_of(alloc, publications, variable)?)?;
    }
    Ok(rows)
}

/// The actions of an agent.
pub fn acts_of(alloc: Global, acts: &[Act], agent: u32) -> Result<Items<Act>, Memory>
    ensures { IfOk result (λ its. its ≡ filter (λ (a : Action). a.agent == agent) acts.now) }
{
    let mut its = Items::new(alloc);
    'acts: for act in acts {
        keep_act(&mut its, act, agent)?;
    }
    Ok(its)
}

fn keep_act(its: &mut Items<Act>, act: &Act, agent: u32) -> Result<(), Memory>
    ensures { OnOk result (its.new ≡ its.old ++ filter (λ (a : Action). a.agent == agent) (act.now ∷ [])) }
{
    if act.agent == agent {
        its.push(*act)?;
    }
    Ok(())
}

// The publications of a variable.
fn publications_of(
    alloc: Global,
    publications: &[Publication],
    variable: u32,
) -> Result<Items<Publication>, Memory>
    ensures { IfOk result (λ its. its ≡ filter (λ (p : Told). p.variable == variable) publications.now) }
{
    let mut its = Items::new(alloc);
    'publications: for publication in publications {
        keep_publication(&mut its, publication, variable)?;
    }
    Ok(its)
}

fn keep_publication(
    its: &mut Items<Publication>,
    publication: &Publication,
    variable: u32,
) -> Result<(), Memory>
    ensures { OnOk result (its.new ≡ its.old ++ filter (λ (p : Told). p.variable == variable) (publication.now ∷ [])) }
{
    if publication.variable == variable {
        its.push(*publication)?;
    }
    Ok(())
}

/// The stretches of an agent.
pub fn segments_of_agent(
    alloc: Global,
    segments: &[Segment],
    agent: u32,
) -> Result<Stretches, Memory>
    ensures { IfOk result (λ its. its ≡ filter (λ (s : Stretch). s.agent == agent) segments.now) }
{
    let mut its = Stretches::new(alloc);
    'segments: for segment in segments {
        keep_of_agent(&mut its, segment, agent)?;
    }
    Ok(its)
}

fn keep_of_agent(its: &mut Stretches, segment: &Segment, agent: u32) -> Result<(), Memory>
    ensures { OnOk result (its.new ≡ its.old ++ filter (λ (s : Stretch). s.agent == agent) (segment.now ∷ [])) }
{
    if segment.agent == agent {
        its.push(*segment)?;
    }
    Ok(())
}

/// The stretches of the action of a number, among those of its agent.
pub fn segments_of_number(
    alloc: Global,
    segments: &[Segment],
    number: u64,
) -> Result<Items<Segment>, Memory>
    ensures { IfOk result (λ its. its ≡ filter (λ (s : Stretch). s.number == number) segments.now) }
{
    let mut its = Items::new(alloc);
    'segments: for segment in segments {
        keep_of_number(&mut its, segment, number)?;
    }
    Ok(its)
}

fn keep_of_number(its: &mut Items<Segment>, segment: &Segment, number: u64) -> Result<(), Memory>
    ensures { OnOk result (its.new ≡ its.old ++ filter (λ (s : Stretch). s.number == number) (segment.now ∷ [])) }
{
    if segment.number == number {
        its.push(*segment)?;
    }
    Ok(())
}
