//! What an action of a trial sees, and where its messages go.

ghost use Rattle.std.specs.Prelude.{◌≡◌, ◌==◌, map, length, vec_capacity, IfOk};
ghost use Rattle.std.proofs.Common.{refl};
ghost use Rattle.std.specs.List.{All};
ghost use Rattle.psy_code.specs.Views.{Window};
ghost use Rattle.psy_meaning.specs.Alike.{IsViewOf, AllFit, MessagesFit, is_there};
ghost use Rattle.psy_trials.specs.Looks.{IsFew};

use psy_base::{Items, Memory};
use psy_code::{Look, Sent};
use psy_tree::{StreamDecl, Unit, VarDecl};
use std::alloc::Global;

/// What one action of an agent sees, and the messages that it sends.
#[derive(Drop)]
pub struct TestLook {
    /// By variable, the value published last, the one before it, and so on.
    pub pasts: Items<Items<i32>>,
    /// By stream, the messages not yet taken; none where the agent isn't its receiver.
    pub messages: Vec<Option<Items<i32>>>,
    /// How many streams and clocks there are.
    pub streams: usize,
    pub clocks: usize,
    pub sends: Vec<Sent>,
    pub noted: Option<(u32, u32)>,
    ghost few: { All IsFew messages.items },
}

impl Look for TestLook {
    ghost window = { λ l. record {
      view = record { pasts = l.pasts; messages = l.messages.items };
      streams = l.streams;
      clocks = l.clocks;
      room = vec_capacity l.sends;
      sends = l.sends.items;
      noted = l.noted;
    } };

    ghost Keeps = { λ s t. (t.streams ≡ s.streams) × (t.clocks ≡ s.clocks) };

    ghost keeps = { λ s. (refl, refl) };

    fn past(&mut self, variable: u32, back: u32) -> i32 {
        self.noted = Some((variable, back));
        self.pasts.as_slice()[variable as usize].as_slice()[back as usize]
    }

    fn ready(&self, stream: u32) -> u32 {
        match &self.messages[stream as usize] {
            Some(messages) => messages.len() as u32,
            None => 0,
        }
    }

    fn take(&mut self, stream: u32) -> Option<i32> {
        match &mut self.messages[stream as usize] {
            Some(messages) if !messages.is_empty() => Some(messages.remove(0)),
            _ => None,
        }
    }

    fn send(&mut self, stream: u32, value: i32, after: u32, clock: u32) {
        self.sends.push_reserved(Sent {
            stream,
            value,
            after,
            clock,
        });
    }
}

// So many of these values, and 0 where there are fewer.
fn values_of(alloc: Global, given: &[i32], count: u32) -> Result<Items<i32>, Memory>
    ensures count { IfOk result (λ values. length values ≡ count) }
    ensures fit { IfOk result AllFit }
{
    let mut values = Items::new(alloc);
    for back in 0..count {
        values.push(given.get(back as usize).copied().unwrap_or(0))?;
    }
    Ok(values)
}

// By variable, as many values as its depth.
fn pasts_of(
    alloc: Global,
    variables: &[VarDecl],
    given: &[&[i32]],
) -> Result<Items<Items<i32>>, Memory>
    ensures depths { IfOk result (λ pasts. map length pasts ≡ map (λ v. v.depth) variables.now) }
    ensures fit { IfOk result (All AllFit) }
{
    let mut pasts = Items::new(alloc);
    for variable in variables {
        let values = given.get(pasts.len()).copied().unwrap_or(&[]);
        pasts.push(values_of(alloc, values, variable.depth)?)?;
    }
    Ok(pasts)
}

// The messages of a stream, where the agent is its receiver.
fn received(
    alloc: Global,
    stream: &StreamDecl,
    agent: u32,
    given: &[i32],
) -> Result<Option<Items<i32>>, Memory>
    ensures there { IfOk result (λ messages. is_there messages ≡ (stream.now.receiver == agent)) }
    ensures fit { IfOk result MessagesFit }
    ensures few { IfOk result IsFew }
{
    if stream.receiver != agent {
        return Ok(None);
    }
    let count = u32::try_from(given.len()).unwrap_or(0);
    Ok(Some(values_of(alloc, given, count)?))
}

// The messages of each stream that the agent receives.
fn messages_of(
    alloc: Global,
    streams: &[StreamDecl],
    agent: u32,
    given: &[&[i32]],
) -> Result<Vec<Option<Items<i32>>>, Memory>
    ensures there { IfOk result (λ messages. map is_there messages.items ≡ map (λ s. s.receiver == agent) streams.now) }
    ensures fit { IfOk result (λ messages. All MessagesFit messages.items) }
    ensures few { IfOk result (λ messages. All IsFew messages.items) }
{
    let mut messages = Vec::new(alloc);
    for stream in streams {
        let values = given.get(messages.len()).copied().unwrap_or(&[]);
        messages.push(received(alloc, stream, agent, values)?)?;
    }
    Ok(messages)
}

/// What an agent of a unit sees, where these are the values of the variables and the messages of the streams.
pub fn look_of(
    alloc: Global,
    unit: &Unit,
    agent: u32,
    pasts: &[&[i32]],
    messages: &[&[i32]],
) -> Result<TestLook, Memory>
    ensures view { IfOk result (λ look. IsViewOf unit.now agent (⟦<TestLook as Look>⟧.window look).view) }
    ensures streams { IfOk result (λ look. look.streams ≡ length unit.now.streams) }
    ensures clocks { IfOk result (λ look. look.clocks ≡ length unit.now.clocks) }
{
    Ok(TestLook {
        pasts: pasts_of(alloc, unit.variables.as_slice(), pasts)?,
        messages: messages_of(alloc, unit.streams.as_slice(), agent, messages)?,
        streams: unit.streams.len(),
        clocks: unit.clocks.len(),
        sends: Vec::new(alloc),
        noted: None,
    })
}
