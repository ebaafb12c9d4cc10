//! The line of an agent: its budget, its greatest cost, and its share of its processor.
ghost use Rattle.std.specs.Prelude.{◌≡◌, ◌==◌, ◌++◌, ◌≤◌, ◌*◌, ◌^◌, OnOk, get_or};
ghost use Rattle.std.specs.List.{All, position_or_len};
ghost use Rattle.psy_base.specs.Extremes.{most_of};
ghost use Rattle.psy_base.specs.declared.limits.TheConstants.{QUANTUM};
ghost use Rattle.psy_meaning.specs.Units.{IsBare};
ghost use Rattle.psy_page.specs.Spelling.{spelled};
ghost use Rattle.psy_plan.specs.Lines.{told_processor};
ghost use Rattle.psy_report.specs.Agents.{agent_line, agent_text, no_point, no_rate, on, share_of};

use crate::measures::{Known, Measures, list_at};
use psy_page::{Piece, fill};
use psy_rate::SCALE;
use psy_tree::{AgentDecl, Point};
use std::alloc::AllocError;

/// The line of an agent: its name and budget, its greatest cost and the budget there, its share with two decimals, and which processor that is of.
pub const AGENT: &[u8] = b"agent $ budget $ worst $ of $ share $.$$%$\n";
/// What stands before the number of a processor.
pub const ON: &[u8] = b" on ";
/// Hundredths of a percent in a whole.
pub const WHOLE: u64 = 10_000;

/// The line of the agent of a number.
pub fn add_agent(out: &mut Vec<u8>, known: Known, number: u32) -> Result<(), AllocError>
    requires bare { IsBare known.unit.now }
    requires rates { All (λ line. line.rate ≤ 2 ^ 40) known.measures.now.lines }
    ensures { OnOk result (out.new.items ≡ out.old.items ++ agent_text known.entry.unit.now known.entry.measures.now number) }
{
    let share = share(rate_of(known.measures, number), known.unit.quantum);
    match known.unit.agents.as_slice().get(number as usize) {
        Some(agent) => add_line(out, agent, list_at(&known.measures.costs, number), share),
        None => Ok(()),
    }
}

// The line of an agent with these costs by point, of which this share of its processor is asked for.
fn add_line(
    out: &mut Vec<u8>,
    agent: &AgentDecl,
    costs: &[u64],
    share: u64,
) -> Result<(), AllocError>
    ensures { OnOk result (out.new.items ≡ out.old.items ++ agent_line agent.now costs.now share) }
{
    let worst = most(costs);
    let of = budget_at(agent.points.as_slice(), place_of(costs, worst));
    let pieces = [
        Piece::Raw(agent.name.bytes()),
        Piece::Number(agent.budget),
        Piece::Long(worst),
        Piece::Number(of),
        Piece::Long(share / 100),
        Piece::Long(share / 10 % 10),
        Piece::Long(share % 10),
        on(agent.processor),
    ];
    fill(out, AGENT, &pieces)
}

/// How the line of a processor ends: with its number, but for processor 0.
pub fn on(processor: u32) -> Piece<'static>
    ensures { spelled result ≡ on processor }
{
    Piece::Labelled(ON, told_processor(processor))
}

// The processor that a line names: none where it is the first.
fn told_processor(processor: u32) -> Option<u32>
    ensures { result ≡ told_processor processor }
{
    if processor == 0 {
        None
    } else {
        Some(processor)
    }
}

// The greatest of some costs; 0 where there is none.
fn most(costs: &[u64]) -> u64
    ensures { result ≡ most_of costs.now }
{
    let mut most = 0u64;
    'costs: for cost in costs {
        most = most.max(*cost);
    }
    most
}

// The first place of a cost; the number of costs where there is none.
fn place_of(costs: &[u64], cost: u64) -> usize
    ensures { result ≡ position_or_len (λ own. own == cost) costs.now }
{
    'costs: for (place, own) in costs.iter().enumerate() {
        if *own == cost {
            return place;
        }
    }
    costs.len()
}

/// The budget of an agent's actions from a point.
pub fn budget_at(points: &[Point], point: usize) -> u32
    ensures { result ≡ (get_or points.now point no_point).budget }
{
    match points.get(point) {
        Some(point) => point.budget,
        None => 0,
    }
}

fn rate_of(measures: &Measures, number: u32) -> u64
    requires rates { All (λ line. line.rate ≤ 2 ^ 40) measures.now.lines }
    ensures rate { result ≡ (get_or measures.now.lines number no_rate).rate }
    ensures small { result ≤ 2 ^ 40 }
{
    match measures.lines.as_slice().get(number as usize) {
        Some(line) => line.rate,
        None => 0,
    }
}

// The share of a processor, in hundredths of a percent, that a rate asks for, rounded up.
fn share(rate: u64, quantum: u32) -> u64
    requires rate { rate ≤ 2 ^ 40 }
    requires quantum { 1 ≤ quantum }
    ensures { result ≡ share_of rate quantum }
{
    (rate * WHOLE).div_ceil(SCALE * u64::from(quantum))
}
