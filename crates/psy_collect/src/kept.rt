//! What is kept of a run until its trace is written.
ghost use Rattle.std.specs.Prelude.{◌≡◌, ◌+◌, ◌*◌, ◌<◌, [], IfOk, IsFalse, IsTrue, None, length, map};
ghost use Rattle.std.specs.List.{range_with_len};
ghost use Rattle.psy_base.specs.declared.limits.TheConstants.{FILE_BYTES};
ghost use Rattle.psy_collect.specs.Keeping.{count_kept, nothing_kept};
ghost use Rattle.psy_history.specs.Processors.{processors};
ghost use Rattle.psy_meaning.specs.Units.{IsBare};

use psy_audit::{Act, Look, Publication, Segment};
use psy_base::limits::FILE_BYTES;
use psy_base::{Items, Memory};
use psy_history::processors_of;
use psy_tree::Unit;
use std::alloc::Global;

/// What is kept of a run, each list in the order of time.
#[derive(Drop)]
pub struct Kept {
    /// The actions behind which their agents went on.
    pub acts: Items<Act>,
    pub publications: Items<Publication>,
    /// The stretches of cycles that are over.
    pub segments: Items<Segment>,
    pub looks: Items<Look>,
    /// By agent, its last action, with the cycles that it had so far.
    pub doing: Items<Option<Act>>,
    /// By processor, its last stretch of cycles.
    pub serving: Items<Option<Segment>>,
}

impl Kept {
    /// Nothing, of the agents and processors of a program.
    pub fn new(alloc: Global, unit: &Unit) -> Result<Kept, Memory>
        requires { IsBare unit.now }
        ensures { IfOk result (λ kept. kept ≡ nothing_kept (length unit.now.agents) (processors unit.now)) }
    {
        Ok(Kept {
            acts: Items::new(alloc),
            publications: Items::new(alloc),
            segments: Items::new(alloc),
            looks: Items::new(alloc),
            doing: no_acts(alloc, unit.agents.len() as u32)?,
            serving: no_segments(alloc, processors_of(unit))?,
        })
    }

    /// Whether so much is kept that the lines of it, each of at least two bytes, pass 262,144 bytes.
    pub fn is_large(&self) -> bool
        ensures large { IsTrue result → FILE_BYTES < 2 * count_kept self.now }
    {
        let acts = self.acts.len() as u128;
        let publications = self.publications.len() as u128;
        let segments = self.segments.len() as u128;
        let looks = self.looks.len() as u128;
        2 * (acts + publications + segments + looks) > FILE_BYTES as u128
    }
}

// No action, of so many agents.
fn no_acts(alloc: Global, agents: u32) -> Result<Items<Option<Act>>, Memory>
    ensures { IfOk result (λ acts. acts ≡ map (λ agent. None) (range_with_len 0 agents)) }
{
    let mut acts = Items::new(alloc);
    'agents: for agent in 0..agents {
        acts.push(no_act(agent))?;
    }
    Ok(acts)
}

fn no_act(_agent: u32) -> Option<Act>
    ensures { result ≡ None }
{
    None
}

// No stretch, of so many processors.
fn no_segments(alloc: Global, processors: u32) -> Result<Items<Option<Segment>>, Memory>
    ensures { IfOk result (λ segments. segments ≡ map (λ processor. None) (range_with_len 0 processors)) }
{
    let mut segments = Items::new(alloc);
    'processors: for processor in 0..processors {
        segments.push(no_segment(processor))?;
    }
    Ok(segments)
}

fn no_segment(_processor: u32) -> Option<Segment>
    ensures { result ≡ None }
{
    None
}
