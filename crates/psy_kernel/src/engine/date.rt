//! A date of the kernel: what is shared moves on, and actions start.
ghost use Rattle.std.specs.Prelude.{◌≡◌, ℕ, ◌+◌, ◌<◌, ◌≤◌, true, length, map, slice_get, None, Some};
ghost use Rattle.std.specs.List.{All};
ghost use Rattle.psy_base.specs.declared.limits.TheConstants.{AGENTS};
ghost use Rattle.psy_kernel.specs.Engines.{next_date, told_of};
ghost use Rattle.psy_kernel.specs.declared.engine.Server.{Server};
ghost use Rattle.psy_tree.specs.declared.unit.AgentDecl.{AgentDecl};
ghost use Rattle.psy_dates.specs.Movers.{IsDoneBelow, NamesAll};
ghost use Rattle.psy_kernel.specs.Starting.{budget_in, deadline_on, held_at, runner_at, seat_at, starts_at, waits_in};

use super::{Engine, Runner, Server};
use psy_dates::{Phase, Seat, at_date};
use psy_history::laws::{fitting, given, on_time, one_of_them, openings, reaches, regular};
use psy_queue::Queue;
use psy_tree::{AgentDecl, Point};

/// Whether the action of the seat starts at the date.
fn starts_at(seat: &Seat, date: u64) -> bool
    ensures { result ≡ starts_at date seat.now }
{
    matches!(seat.phase, Phase::Acting) && seat.start == date
}

/// The budget of a point.
fn budget_in(points: &[Point], point: u32) -> u32
    ensures { result ≡ budget_in points.now point }
{
    match points.get(point as usize) {
        Some(point) => point.budget,
        None => 0,
    }
}

/// The actions of these seats that start at the date start: they are of agents that moved there.
pub(super) fn start_all(
    movers: &[u32],
    seats: &[Seat],
    agents: &[AgentDecl],
    date: u64,
    runners: &mut Vec<Runner>,
    servers: &mut Vec<Server>,
)
    requires few { length agents.now ≤ AGENTS }
    requires seated { length seats.now ≡ length agents.now }
    requires run { length runners.old.items ≡ length agents.now }
    requires homes { All (λ (a : AgentDecl). a.processor < length servers.old.items) agents.now }
    requires waiting { All (λ (server : Server). length server.ready ≡ length agents.now) servers.old.items }
    requires known { All (λ agent. agent < length seats.now) movers.now }
    requires movers { NamesAll (λ agent. starts_at date (seat_at seats.now agent)) (length seats.now) 0 movers.now }
    requires free { (agent : ℕ) → starts_at date (seat_at seats.now agent) ≡ true → waits_in agents.now servers.old.items agent ≡ None }
    ensures runners { IsDoneBelow (runner_at date seats.now agents.now) (length agents.now) runners.old.items runners.new.items }
    ensures served { length servers.new.items ≡ length servers.old.items }
    ensures ready { (processor : ℕ) (old new : Server) → slice_get servers.old.items processor ≡ Some old → slice_get servers.new.items processor ≡ Some new
        → (new ≡ record old { ready = new.ready }) × IsDoneBelow (deadline_on date agents.now seats.now processor) (length agents.now) old.ready new.ready }
{
    'movers: for place in 0..movers.len() {
        let agent = movers[place] as usize;
        let seat = seats[agent];
        if starts_at(&seat, date) {
            let budget = budget_in(agents[agent].points.as_slice(), seat.point);
            runners[agent].charge.start(budget);
            let home = agents[agent].processor as usize;
            servers[home].ready.add(agent as u32, seat.deadline);
        }
    }
}

/// By stream, the greatest number of messages that it held, with those that it holds now.
fn hold_all(queues: &[Queue], helds: &mut Vec<u32>)
    requires { length helds.old.items ≡ length queues.now }
    ensures { IsDoneBelow (held_at queues.now) (length queues.now) helds.old.items helds.new.items }
{
    'each: for stream in 0..queues.len() {
        let held = queues[stream].held();
        helds[stream] = helds[stream].max(held);
    }
}

impl Engine {
    /// Does the date that is due on each processor, once all lines of the date before it were given. It takes no memory.
    pub(crate) fn date(&mut self)
        requires due { All (λ done. done ≡ next_date self.old) self.old.done }
        requires early { self.old.dates ≤ self.old.plan.until }
        requires given { self.old.given ≡ length (told_of self.old) }
        ensures state { self.new ≡ record self.old { dates = self.old.dates + 1; given = 0 } }
    {
        given();
        fitting();
        openings();
        regular();
        on_time();
        reaches();
        one_of_them();
        let date = self.dates();
        at_date(&mut self.shared, &self.plan, date);
        hold_all(self.shared.queues.as_slice(), &mut self.helds);
        start_all(
            self.shared.movers.moved.agents(),
            self.shared.seats.as_slice(),
            self.plan.unit.agents.as_slice(),
            date,
            &mut self.runners,
            &mut self.servers,
        );
        ask_anew(&mut self.servers);
        self.place = 0;
        self.shown = 0;
        self.given = 0;
    }
}

/// On each processor it is asked anew who runs.
fn ask_anew(servers: &mut Vec<Server>)
    ensures { servers.new.items ≡ map (λ (server : Server). record server { stale = true }) servers.old.items }
{
    'each: for processor in 0..servers.len() {
        servers[processor].stale = true;
    }
}
