//! The lanes of agents that were stopped.

ghost use Rattle.std.specs.Prelude.{◌≡◌, ◌≤◌, ◌&&◌, [], false, true, OnOk, bytes_eq, length, map, nat_le, string_bytes};
ghost use Rattle.std.specs.List.{list_any};
ghost use Rattle.psy_draw.specs.Homes.{housed_of};
ghost use Rattle.psy_draw.specs.Lanes.{is_asked};
ghost use Rattle.psy_draw.specs.Planning.{stop_lane, stop_lanes};
ghost use Rattle.psy_draw.specs.Scales.{place_by};
ghost use Rattle.psy_draw.specs.declared.room.TheConstants.{MOST_LANES};

use crate::choice::is_asked;
use crate::home::{Home, home_at};
use crate::lane::{Lane, Shape};
use crate::names::Names;
use crate::room::MOST_LANES;
use crate::scale::Scale;
use crate::stops::Stop;
use psy_arith::Trap;
use psy_base::Memory;
use psy_log::Note;
use std::alloc::Global;

/// By what stops become lanes: the agents of the summary, the processors of agents, the names that were asked for, and the scale.
#[derive(Clone, Copy)]
pub struct Stops<'a, 's> {
    pub agents: &'s Names<'a>,
    pub homes: &'s [Home<'s>],
    pub names: &'s [String],
    pub scale: &'s Scale,
}

/// The lanes of agents that were stopped up to the last date; full where there are more than have room.
#[derive(Drop)]
pub struct Stopped<'a> {
    pub lanes: Vec<Lane<'a>>,
    pub full: bool,
    ghost room: { length lanes.items ≤ MOST_LANES },
}

impl<'a> Stopped<'a> {
    ghost use Rattle.psy_draw.specs.Gathering.{AddsStops, Pushes, is_known};

    /// No lanes.
    pub fn new(alloc: Global) -> Stopped<'a>
        ensures lanes { result.lanes.items ≡ [] }
        ensures room { result.full ≡ false }
    {
        Stopped {
            lanes: Vec::new(alloc),
            full: false,
        }
    }

    /// Adds the lane that a note tells, whose agent is one of the summary.
    pub fn add(&mut self, by: Stops<'a, '_>, note: &Note) -> Result<(), Memory>
        ensures { OnOk result (is_known by.entry.agents.now note.now ≡ true → AddsStops (place_by by.entry.scale.now)
            (stop_lanes by.entry.scale.now.to (map housed_of by.entry.homes.now) (map string_bytes by.entry.names.now) note.now) self.old self.new) }
    {
        match *note {
            Note::StopOverrun { date, agent } => self.add_stop(by, date, agent, None),
            Note::StopTrap { date, agent, kind } => self.add_stop(by, date, agent, Some(kind)),
            _ => Ok(()),
        }
    }

    // Adds a stop up to the last date, where its agent was asked for.
    fn add_stop(
        &mut self,
        by: Stops<'a, '_>,
        date: u64,
        agent: &[u8],
        trap: Option<Trap>,
    ) -> Result<(), Memory>
        ensures { OnOk result (list_any (bytes_eq agent.now) by.entry.agents.now ≡ true → AddsStops (place_by by.entry.scale.now)
            (stop_lane by.entry.scale.now.to (map housed_of by.entry.homes.now) (map string_bytes by.entry.names.now) date agent.now trap)
            self.old self.new) }
    {
        if !is_shown(by, date, agent) {
            return Ok(());
        }
        match by.agents.find(agent) {
            Some(name) => self.push(Lane {
                name,
                silent: None,
                shape: Shape::Stop(Stop::new(by.scale, date, trap, home_at(by.homes, agent))),
            }),
            None => Ok(()),
        }
    }

    // Adds a lane, where it has room.
    fn push(&mut self, lane: Lane<'a>) -> Result<(), Memory>
        ensures { OnOk result (Pushes lane.entry self.old self.new) }
    {
        if MOST_LANES <= self.lanes.len() {
            self.full = true;
            return Ok(());
        }
        self.lanes.push(lane)?;
        Ok(())
    }
}

// Is a stop shown: is its date none past the last one, and was its agent asked for?
fn is_shown(by: Stops, date: u64, agent: &[u8]) -> bool
    ensures { result ≡ (nat_le date by.entry.scale.now.to && is_asked (map string_bytes by.entry.names.now) agent.now) }
{
    date <= u64::from(by.scale.to) && is_asked(by.names, agent)
}
