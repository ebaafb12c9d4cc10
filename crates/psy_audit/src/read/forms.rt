//! Lines, by what their words are as numbers: each says something where all of them are there.
ghost use Rattle.std.specs.Prelude.{◌≡◌};
ghost use Rattle.psy_audit.specs.Texts.{act_with, look_with, publication_with, segment_with};

use crate::said::{Act, Ending, Look, Publication, Said, Segment};

/// An action.
pub fn act_with(
    agent: u32,
    number: Option<u64>,
    point: Option<u64>,
    start: Option<u64>,
    due: Option<u64>,
    work: Option<u64>,
    ending: Option<Ending>,
) -> Option<Said>
    ensures { result ≡ act_with agent number point start due work ending }
{
    Some(Said::Acted(Act {
        agent,
        number: number?,
        point: point?,
        start: start?,
        due: due?,
        work: work?,
        ending: ending?,
    }))
}

/// A publication.
pub fn publication_with(
    variable: u32,
    date: Option<u64>,
    slot: Option<u64>,
    value: Option<i64>,
) -> Option<Said>
    ensures { result ≡ publication_with variable date slot value }
{
    Some(Said::Published(Publication {
        variable,
        date: date?,
        slot: slot?,
        value: value?,
    }))
}

/// A stretch of cycles.
pub fn segment_with(
    processor: Option<u64>,
    first: Option<u64>,
    past: Option<u64>,
    agent: u32,
    number: Option<u64>,
) -> Option<Said>
    ensures { result ≡ segment_with processor first past agent number }
{
    Some(Said::Served(Segment {
        processor: processor?,
        first: first?,
        past: past?,
        agent,
        number: number?,
    }))
}

/// A look.
pub fn look_with(
    agent: u32,
    number: Option<u64>,
    cycle: Option<u64>,
    variable: u32,
    back: Option<u64>,
    slot: Option<u64>,
    value: Option<i64>,
) -> Option<Said>
    ensures { result ≡ look_with agent number cycle variable back slot value }
{
    Some(Said::Looked(Look {
        agent,
        number: number?,
        cycle: cycle?,
        variable,
        back: back?,
        slot: slot?,
        value: value?,
    }))
}
