//! What is found of several processors, as one after the other is judged.
ghost use Rattle.std.specs.Prelude.{◌≡◌};
ghost use Rattle.psy_demand.specs.Findings.{joined, sooner};

use crate::demand::Verdict;

/// Whether processors can supply what their agents may demand.
#[derive(Clone, Copy, Debug, PartialEq, Eq)]
pub enum Finding {
    /// Each can, over each length.
    Feasible,
    /// Over this length, the least of such, this processor, the least of such, can't, and so many cycles are demanded of it.
    Overload {
        length: u32,
        processor: u32,
        demand: u64,
    },
}

// The overload that comes sooner: an earlier processor's, or this one.
fn sooner(found: Finding, length: u32, processor: u32, demand: u64) -> Finding
    ensures { result ≡ sooner found length processor demand }
{
    let overload = Finding::Overload {
        length,
        processor,
        demand,
    };
    match found {
        Finding::Feasible => overload,
        Finding::Overload { length: least, .. } => { if length < least { overload } else { found } }
    }
}

/// What is found of the processors before this one, together with its own verdict.
pub fn joined(found: Finding, processor: u32, verdict: Verdict) -> Finding
    ensures { result ≡ joined found processor verdict }
{
    match verdict {
        Verdict::Yes => found,
        Verdict::No { length, demand } => sooner(found, length, processor, demand),
    }
}
