//! What tells when an agent's actions begin and end.
ghost use Rattle.std.specs.Prelude.{◌≡◌, ◌+◌, ◌^◌, ◌<◌, ◌≤◌, map, length, IfOk};
ghost use Rattle.psy_meaning.specs.Timing.{point_at, clock_at, following, budget_at, first_date, end_date};
ghost use Rattle.psy_graph.specs.Graphs.{IsTimed};
ghost use Rattle.psy_graph.specs.Steps.{timing_by, STEP};

use psy_base::{Items, Memory};
use psy_clock::Clock;
use psy_clock::laws::distances;
use psy_tree::Point;
use std::alloc::Global;

/// What tells when an agent's actions begin and end: the clocks of the program, the agent's points, and for each point
/// those that may follow it.
#[derive(Clone, Copy)]
pub struct Times<'a> {
    pub clocks: &'a [Clock],
    pub points: &'a [Point],
    pub nexts: &'a [Items<u32>],
}

impl Times<'_> {
    /// The clock by which a point goes on.
    pub fn clock(&self, point: u32) -> Clock
        requires timed { IsTimed (timing_by self.now) }
        requires point { point < length self.now.points.now }
        ensures { result ≡ clock_at (timing_by self.now) (point_at (timing_by self.now) point).clock }
    {
        let clock = self.points[point as usize].clock;
        self.clocks[clock as usize]
    }

    /// The date of the agent's first action.
    pub fn first(&self) -> u64
        requires { IsTimed (timing_by self.now) }
        ensures { result ≡ first_date (timing_by self.now) }
    {
        u64::from(self.clock(0).first)
    }

    /// The cycles that an action from a point may take.
    pub fn budget(&self, point: u32) -> u32
        requires { point < length self.now.points.now }
        ensures { result ≡ budget_at (timing_by self.now) point }
    {
        self.points[point as usize].budget
    }

    /// The dates by which a point's `advance` goes on.
    fn count(&self, point: u32) -> u32
        requires { point < length self.now.points.now }
        ensures { result ≡ (point_at (timing_by self.now) point).count }
    {
        self.points[point as usize].count
    }

    /// The points that may follow a point.
    pub fn next(&self, point: u32) -> &[u32]
        requires { point < length self.now.nexts.now }
        ensures { result.now ≡ following (timing_by self.now) point }
    {
        self.nexts[point as usize].as_slice()
    }

    /// The date at which an action ends that started at a date and reaches a point.
    pub fn end(&self, start: u64, to: u32) -> u64
        requires timed { IsTimed (timing_by self.now) }
        requires some { 1 ≤ to }
        requires to { to < length self.now.points.now }
        requires early { start ≤ 2 ^ 40 }
        ensures value { result ≡ end_date (timing_by self.now) start to }
        ensures late { start < result }
        ensures near { result ≤ start + STEP }
    {
        distances();
        self.clock(to).after(start, self.count(to))
    }

    /// The dates at which an action from a point that started at a date may end, by the points that may follow.
    pub fn ends(&self, alloc: Global, point: u32, start: u64) -> Result<Items<u64>, Memory>
        requires timed { IsTimed (timing_by self.now) }
        requires point { point < length self.now.points.now }
        requires early { start ≤ 2 ^ 40 }
        ensures { IfOk result (λ ends. ends ≡ map (end_date (timing_by self.now) start) (following (timing_by self.now) point)) }
    {
        let mut ends = Items::new(alloc);
        'next: for to in self.next(point) {
            ends.push(self.end(start, *to))?;
        }
        Ok(ends)
    }
}
