//! The places where an agent's actions start.

ghost use Rattle.std.specs.Prelude.{◌≡◌, ◌⊎◌, ℕ, ◌+◌, ◌*◌, ◌<◌, ◌≤◌, [], ◌∷◌, ◌++◌, length, IfOk, OnOk, OnErr, IfErr, take, slice_index_or};
ghost use Rattle.std.specs.List.{AllPairs, Contains, insert};
ghost use Rattle.psy_base.specs.declared.limits.TheConstants.{NODES};
ghost use Rattle.psy_meaning.specs.Timing.{following};
ghost use Rattle.psy_meaning.specs.Graph.{PassesNodes};
ghost use Rattle.psy_graph.specs.declared.fault.GraphFault.TheVariants.{Nodes as many_nodes, Memory as no_memory};
ghost use Rattle.psy_graph.specs.declared.place.Place.{Place as Where};
ghost use Rattle.psy_graph.specs.Graphs.{IsTimed};
ghost use Rattle.psy_graph.specs.Steps.{timing_by, IsModulus, STEP};
ghost use Rattle.psy_graph.specs.Places.{Before, IsRoom, IsAdded, IsMetAt, HasFollowers, AreFound, ArePlaces, AreNear, IsFront, follower};

use crate::fault::GraphFault;
use crate::place::{Place, seek, stands_at};
use crate::times::Times;
use psy_base::limits::NODES;
use psy_base::{Items, Memory};
use psy_clock::laws::distances;
use std::alloc::Global;

/// The places that were found so far.
#[derive(Drop)]
struct Found {
    /// In the order of finding, which is that of the work
    work: Vec<Place>,
    /// In order of the point, then of the phase
    places: Vec<Place>,
}

impl Found {
    /// That which has found one place.
    fn new(alloc: Global, place: Place) -> Result<Found, Memory>
        ensures work { IfOk result (λ found. found.work.items ≡ place ∷ []) }
        ensures places { IfOk result (λ found. found.places.items ≡ place ∷ []) }
    {
        let mut work = Vec::new(alloc);
        work.push(place)?;
        let mut places = Vec::new(alloc);
        places.push(place)?;
        Ok(Found { work, places })
    }

    fn insert(&mut self, at: usize, place: Place) -> Result<(), Memory>
        requires { at ≤ length self.old.places.items }
        ensures work { OnOk result (self.new.work.items ≡ self.old.work.items ++ place ∷ []) }
        ensures places { OnOk result (self.new.places.items ≡ insert self.old.places.items at place) }
    {
        self.work.push(place)?;
        self.places.insert(at, place)?;
        Ok(())
    }

    /// Finds a place, of the agent with this number.
    fn add(&mut self, place: Place, agent: u32) -> Result<(), GraphFault>
        requires rise { AllPairs Before self.old.places.items }
        ensures added { OnOk result (IsAdded place self.old.work.items self.old.places.items self.new.work.items self.new.places.items) }
        ensures few { length self.old.places.items ≤ NODES → OnOk result (length self.new.places.items ≤ NODES) }
        ensures full { IfErr result (λ fault. (fault ≡ no_memory)
            ⊎ ((fault ≡ many_nodes agent) × (NODES ≤ length self.old.places.items) × (at : ℕ) × IsRoom self.old.places.items place at)) }
    {
        let at = seek(self.places.as_slice(), place);
        if stands_at(self.places.as_slice(), at, place) {
            return Ok(());
        }
        if self.places.len() >= NODES as usize {
            return Err(GraphFault::Nodes(agent));
        }
        self.insert(at, place)?;
        Ok(())
    }

    /// Finds the place where an action from the place of this number is followed that reaches a point.
    fn reach(
        &mut self,
        at: usize,
        to: u32,
        times: &Times,
        modulus: u64,
        agent: u32,
    ) -> Result<(), GraphFault>
        requires timed { IsTimed (timing_by times.now) }
        requires modulus { IsModulus (timing_by times.now) modulus }
        requires at { at < length self.old.work.items }
        requires found { AreFound (timing_by times.now) self.old.work.items self.old.places.items }
        requires few { length self.old.places.items ≤ NODES }
        requires follows { (d : Where) → Contains (following (timing_by times.now) (slice_index_or self.old.work.items at d).point) to }
        ensures found { OnOk result (AreFound (timing_by times.now) self.new.work.items self.new.places.items) }
        ensures few { OnOk result (length self.new.places.items ≤ NODES) }
        ensures front { OnOk result (IsFront self.old.work.items self.new.work.items) }
        ensures grown { OnOk result ((place : Where) → Contains self.old.places.items place → Contains self.new.places.items place) }
        ensures reached { OnOk result ((d : Where) → Contains self.new.places.items
            (follower (timing_by times.now) (slice_index_or self.old.work.items at d) to)) }
        ensures cause { IfErr result (λ fault. (fault ≡ no_memory) ⊎ ((fault ≡ many_nodes agent) × PassesNodes (timing_by times.now))) }
    {
        distances();
        let from = self.work[at];
        let end = times.end(from.phase, to);
        let place = Place {
            point: to,
            phase: end % modulus,
        };
        self.add(place, agent)
    }

    /// Finds the places of all actions that may follow one from the place of this number.
    fn follow(
        &mut self,
        at: usize,
        times: &Times,
        modulus: u64,
        agent: u32,
    ) -> Result<(), GraphFault>
        requires timed { IsTimed (timing_by times.now) }
        requires modulus { IsModulus (timing_by times.now) modulus }
        requires at { at < length self.old.work.items }
        requires found { AreFound (timing_by times.now) self.old.work.items self.old.places.items }
        requires few { length self.old.places.items ≤ NODES }
        ensures found { OnOk result (AreFound (timing_by times.now) self.new.work.items self.new.places.items) }
        ensures few { OnOk result (length self.new.places.items ≤ NODES) }
        ensures front { OnOk result (IsFront self.old.work.items self.new.work.items) }
        ensures grown { OnOk result ((place : Where) → Contains self.old.places.items place → Contains self.new.places.items place) }
        ensures followers { OnOk result ((d : Where) → HasFollowers (timing_by times.now) self.new.places.items (slice_index_or self.old.work.items at d)) }
        ensures cause { IfErr result (λ fault. (fault ≡ no_memory) ⊎ ((fault ≡ many_nodes agent) × PassesNodes (timing_by times.now))) }
    {
        let from = self.work[at];
        'next: for to in times.next(from.point) {
            self.reach(at, *to, times, modulus, agent)?;
        }
        Ok(())
    }
}

/// The places where the actions of an agent start, in order of point and phase.
pub fn explore(
    alloc: Global,
    times: &Times,
    modulus: u64,
    agent: u32,
) -> Result<Items<Place>, GraphFault>
    requires timed { IsTimed (timing_by times.now) }
    requires modulus { IsModulus (timing_by times.now) modulus }
    ensures places { IfOk result (ArePlaces (timing_by times.now)) }
    ensures few { IfOk result (λ places. length places ≤ NODES) }
    ensures near { IfOk result AreNear }
    ensures cause { IfErr result (λ fault. (fault ≡ no_memory) ⊎ ((fault ≡ many_nodes agent) × PassesNodes (timing_by times.now))) }
{
    let first = Place {
        point: 0,
        phase: times.first() % modulus,
    };
    let mut found = Found::new(alloc, first)?;
    let mut at = 0;
    'work: while at < found.work.len() {
        found.follow(at, times, modulus, agent)?;
        at += 1;
    }
    let Found { places, .. } = found;
    Ok(Items::from_vec(places))
}
