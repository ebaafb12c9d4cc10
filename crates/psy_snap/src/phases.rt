//! Where an agent's actions may start: at the nodes of its graph.
ghost use Rattle.std.specs.Prelude.{◌≡◌, ◌%◌, ◌&&◌, ◌==◌, ◌<◌, length};
ghost use Rattle.std.specs.List.{All, list_all};
ghost use Rattle.psy_snap.specs.Forms.{is_node, is_phase};
ghost use Rattle.psy_snap.specs.Plans.{is_alike, periods_of};

use psy_clock::Clock;
use psy_graph::Node;
use psy_tree::Point;

/// Whether two dates leave the same remainder by a period.
#[tactic(auto, using(crate::proofs::Remainders::by_zero))]
fn is_whole(period: u32, date: u64, other: u64) -> bool
    ensures { result ≡ (date % period == other % period) }
{
    if period == 0 {
        return date == other;
    }
    let period = u64::from(period);
    date % period == other % period
}

/// Whether two dates leave the same remainder by the period of a point's clock.
fn is_alike(clocks: &[Clock], point: &Point, date: u64, other: u64) -> bool
    requires { point.now.clock < length clocks.now }
    ensures { result ≡ is_alike clocks.now date other point.now }
{
    is_whole(clocks[point.clock as usize].period, date, other)
}

/// Whether they do by the period of each of the points' clocks.
fn are_alike(clocks: &[Clock], points: &[Point], date: u64, other: u64) -> bool
    requires { All (λ p. p.clock < length clocks.now) points.now }
    ensures { result ≡ list_all (is_alike clocks.now date other) points.now }
{
    points
        .iter()
        .all(|point| is_alike(clocks, point, date, other))
}

/// Whether two dates are of one phase.
#[tactic(auto, using(crate::proofs::Remainders::of_one_phase))]
fn is_phase(clocks: &[Clock], points: &[Point], date: u64, other: u64) -> bool
    requires { All (λ p. p.clock < length clocks.now) points.now }
    ensures { result ≡ is_phase (periods_of clocks.now points.now) date other }
{
    are_alike(clocks, points, date, other)
}

fn is_at(clocks: &[Clock], points: &[Point], point: u32, date: u64, node: &Node) -> bool
    requires { All (λ p. p.clock < length clocks.now) points.now }
    ensures { result ≡ ((node.now.point == point) && is_phase (periods_of clocks.now points.now) date node.now.phase) }
{
    node.point == point && is_phase(clocks, points, date, node.phase)
}

/// Whether one of the nodes has the point, and the phase of the date.
pub fn is_node(clocks: &[Clock], points: &[Point], nodes: &[Node], point: u32, date: u64) -> bool
    requires { All (λ p. p.clock < length clocks.now) points.now }
    ensures { result ≡ is_node (periods_of clocks.now points.now) nodes.now point date }
{
    nodes
        .iter()
        .any(|node| is_at(clocks, points, point, date, node))
}
