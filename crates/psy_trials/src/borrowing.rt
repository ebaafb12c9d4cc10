//! A look that borrows what all agents share, and a step that is served by it.

ghost use Rattle.std.specs.Prelude.{◌≡◌, ◌≢◌, ◌==◌, ◌∷◌, ◌^◌, ◌<◌, [], None, Some, if◌then◌else◌, length, vec_capacity, refl};
ghost use Rattle.psy_code.specs.Execution.{Stuck, call_of};
ghost use Rattle.psy_code.specs.Views.{PermitsAll};
ghost use Rattle.psy_machine.specs.Stepping.{IsOf, Answers, next_for, stepped, window_after};

use psy_base::Items;
use psy_code::{Code, Look, Sent};
use psy_machine::{Machine, Step};

/// What all agents share.
#[derive(Drop)]
pub struct Shared {
    /// What the one variable published, the newest first.
    pub past: Items<i32>,
    /// The messages of the one stream, and the agent that receives them.
    pub messages: Items<i32>,
    pub receiver: u32,
    /// What the actions sent.
    pub sends: Vec<Sent>,
    /// The variable and the `back` of the last look.
    pub noted: Option<(u32, u32)>,
    /// How many dates are done, which no action sees.
    pub dates: u64,
    ghost few: { length messages < 2 ^ 32 },
}

/// What an action of one agent sees of it.
#[derive(Drop)]
pub struct Eyes<'a> {
    pub shared: &'a mut Shared,
    pub agent: u32,
}

impl<'a> Look for Eyes<'a> {
    ghost window = { λ eyes. record {
      view = record {
        pasts = eyes.shared.now.past ∷ [];
        messages = (if eyes.agent == eyes.shared.now.receiver then Some eyes.shared.now.messages else None) ∷ [];
      };
      streams = 1;
      clocks = 1;
      room = vec_capacity eyes.shared.now.sends;
      sends = eyes.shared.now.sends.items;
      noted = eyes.shared.now.noted;
    } };

    // the agent, the reference, and what no action changes
    ghost Keeps = { λ before after. (after.agent ≡ before.agent)
        × (after.shared.ghost_name ≡ before.shared.ghost_name)
        × (after.shared.now.past ≡ before.shared.now.past)
        × (after.shared.now.receiver ≡ before.shared.now.receiver)
        × (after.shared.now.dates ≡ before.shared.now.dates) };

    ghost keeps = { λ eyes. (refl, refl, refl, refl, refl) };

    fn past(&mut self, variable: u32, back: u32) -> i32 {
        let shared = &mut *self.shared;
        shared.noted = Some((variable, back));
        shared.past.as_slice()[back as usize]
    }

    fn ready(&self, _stream: u32) -> u32 {
        self.shared.messages.len() as u32
    }

    fn take(&mut self, _stream: u32) -> Option<i32> {
        let shared = &mut *self.shared;
        if shared.messages.is_empty() {
            return None;
        }
        Some(shared.messages.remove(0))
    }

    fn send(&mut self, stream: u32, value: i32, after: u32, clock: u32) {
        let shared = &mut *self.shared;
        shared.sends.push_reserved(Sent {
            stream,
            value,
            after,
            clock,
        });
    }
}

/// Executes the next instruction of an agent's machine. Of what the agents share, what no action changes
/// stays as it was.
pub fn step_of(machine: &mut Machine, code: &Code, shared: &mut Shared, agent: u32) -> Step
    requires of { IsOf code.now machine.old }
    requires able { let window = ⟦<Eyes<'static> as Look>⟧.window (record { shared = shared; agent = agent }) in
        next_for code.now window.view machine.old ≢ Stuck }
    requires permitted { let window = ⟦<Eyes<'static> as Look>⟧.window (record { shared = shared; agent = agent }) in
        PermitsAll window (call_of code.now machine.old.machine) }
    ensures answer { let window = ⟦<Eyes<'static> as Look>⟧.window (record { shared = shared.entry; agent = agent }) in
        Answers (next_for code.now window.view machine.old) result }
    ensures machine { let window = ⟦<Eyes<'static> as Look>⟧.window (record { shared = shared.entry; agent = agent }) in
        machine.new ≡ stepped code.now window.view machine.old }
    ensures window { let eyes = ⟦<Eyes<'static> as Look>⟧.window in
        eyes (record { shared = shared.exit; agent = agent })
        ≡ window_after (eyes (record { shared = shared.entry; agent = agent })) (call_of code.now machine.old.machine) }
    ensures past { shared.new.past ≡ shared.old.past }
    ensures receiver { shared.new.receiver ≡ shared.old.receiver }
    ensures dates { shared.new.dates ≡ shared.old.dates }
{
    let mut eyes = Eyes { shared, agent };
    machine.step(code, &mut eyes)
}
