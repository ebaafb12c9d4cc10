//! Where actions start: a point and a phase.
ghost use Rattle.std.specs.Prelude.{◌<◌, ◌≡◌, length, slice_get, Some};
ghost use Rattle.std.specs.Bool.{Decides};
ghost use Rattle.std.specs.List.{AllPairs};
ghost use Rattle.psy_graph.specs.Places.{Before, IsSought};

/// Where actions start: a point, and the phase of a date in the agent's cycle.
#[derive(Clone, Copy, Debug, PartialEq, Eq)]
pub struct Place {
    pub point: u32,
    pub phase: u64,
}

/// Whether a place stands before another: places are ordered by the point, then by the phase.
fn is_before(a: Place, b: Place) -> bool
    ensures { Decides result (Before a b) }
{
    a.point < b.point || a.point == b.point && a.phase < b.phase
}

/// The number of those of some places in order that stand before a place.
pub fn seek(places: &[Place], place: Place) -> usize
    requires { AllPairs Before places.now }
    ensures { IsSought places.now place result }
{
    let mut low = 0;
    let mut high = places.len();
    'halving: while low < high {
        let middle = low + (high - low) / 2;
        if is_before(places[middle], place) {
            low = middle + 1;
        } else {
            high = middle;
        }
    }
    low
}

/// Whether a place stands at this number among others.
pub fn stands_at(places: &[Place], at: usize, place: Place) -> bool
    ensures { Decides result (slice_get places.now at ≡ Some place) }
{
    at < places.len() && places[at] == place
}
