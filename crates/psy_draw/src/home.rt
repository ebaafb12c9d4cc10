//! Of which processors agents are.
ghost use Rattle.std.specs.Prelude.{◌≡◌, ◌≤◌, length, map};
ghost use Rattle.psy_draw.specs.Homes.{home_at, housed_of, on_processor};

use crate::labels::digits_of;

/// An agent, and the processor that it is of, where that is told beside its name.
#[derive(Clone, Copy, Debug, Drop)]
pub struct Home<'a> {
    pub agent: &'a [u8],
    pub processor: u32,
}

/// The processor of an agent, where one is told.
pub fn home_at(homes: &[Home], name: &[u8]) -> Option<u32>
    ensures { result ≡ home_at (map housed_of homes.now) name.now }
{
    'each: for home in homes {
        if home.agent == name {
            return Some(home.processor);
        }
    }
    None
}

/// Before the processor of an agent.
pub const ON: &[u8] = b" on ";

/// How many letters that and a processor have, where there is one.
pub fn processor_letters(processor: Option<u32>) -> usize
    ensures letters { result ≡ length (on_processor processor) }
    ensures few { result ≤ 14 }
{
    match processor {
        Some(number) => ON.len() + digits_of(u64::from(number)),
        None => 0,
    }
}
