//! What begins a state, and what is told of an agent or a variable behind a flag.
ghost use Rattle.std.specs.Prelude.{◌≡◌};
ghost use Rattle.psy_snap.specs.declared.fault.ReadError.TheVariants.{Bad};
ghost use Rattle.psy_snap.specs.Reading.{Gives, figures_at, head_at, reach_at, slack_at};

use crate::fault::ReadError;
use crate::fields::{flag_after, long_below, one_of, up_to};
use crate::limits::FIGURE;

/// The mark, and the date: it is at most the last date of the plan.
#[tactic(auto, unfolding(crate::specs::Reading::head_at))]
pub fn head(until: u32, bytes: &[u8]) -> Result<(u32, &[u8]), ReadError>
    ensures { Gives (λ x. (x.0, x.1.now)) result (head_at until bytes.now) }
{
    if !bytes.starts_with(b"PSYS\x01") {
        return Err(ReadError::Bad {
            number: 1,
            left: bytes.len(),
        });
    }
    let (_, rest) = bytes.split_at(5);
    up_to(until, rest)
}

fn slack(flag: u32, bytes: &[u8]) -> Result<(Option<u64>, &[u8]), ReadError>
    ensures { Gives (λ x. (x.0, x.1.now)) result (slack_at flag bytes.now) }
{
    if flag != 1 {
        return Ok((None, bytes));
    }
    let (slack, rest) = long_below(FIGURE, bytes)?;
    Ok((Some(slack), rest))
}

/// How many actions of an agent were due, and the least slack among them.
#[tactic(auto, unfolding(crate::specs::Reading::figures_at))]
pub fn figures(bytes: &[u8]) -> Result<(u64, Option<u64>, &[u8]), ReadError>
    ensures { Gives (λ x. ((x.0, x.1), x.2.now)) result (figures_at bytes.now) }
{
    let (count, rest) = long_below(FIGURE, bytes)?;
    let (flag, rest) = flag_after(count, rest)?;
    let (slack, rest) = slack(flag, rest)?;
    Ok((count, slack, rest))
}

/// How far back a variable was reached for, if it was.
pub fn reach(size: u32, flag: u32, bytes: &[u8]) -> Result<(Option<u32>, &[u8]), ReadError>
    ensures { Gives (λ x. (x.0, x.1.now)) result (reach_at size flag bytes.now) }
{
    if flag != 1 {
        return Ok((None, bytes));
    }
    let (reach, rest) = one_of(size, bytes)?;
    Ok((Some(reach), rest))
}
