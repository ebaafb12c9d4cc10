//! From bytes to an image.
ghost use Rattle.std.specs.Prelude.{◌≡◌, ◌≤◌, [], IfErr, IfOk, List, ℕ, length};
ghost use Rattle.psy_base.specs.declared.limits.TheConstants.{CLOCKS, FILE_BYTES, VARIABLES};
ghost use Rattle.psy_image.specs.declared.image.Image.{Image as image_type};
ghost use Rattle.psy_image.specs.Answers.{GivesBad, GivesImage, IsBadAt, IsFault, IsWithin, answer_of, fault_from};
ghost use Rattle.psy_image.specs.Images.{image, spells_image};
ghost use Rattle.psy_image.specs.Reading.{Gives, read};

use crate::agents::{AgentLists, agents};
use crate::declarations::{ClockLists, clocks, streams, variables};
use crate::fault::{ImageFault, ReadError};
use crate::fields::{end, magic, within};
use crate::functions::functions;
use crate::image::Image;
use crate::instructions::instrs;
use crate::seen::{Seen, copied};
use psy_base::Items;
use psy_base::limits::QUANTUM;
use psy_code::Code;
use psy_tree::Unit;
use std::alloc::Global;

#[tactic(auto, unfolding(crate::specs::Images::image), using(crate::proofs::Exact::read_then))]
fn image(alloc: Global, bytes: &[u8]) -> Result<Image, ReadError>
    ensures { Gives (λ it. (it, [])) result (read image bytes.now) }
{
    let rest = magic(bytes)?;
    let (quantum, rest) = within(1, QUANTUM, rest)?;
    let (lists, rest) = clocks(alloc, rest)?;
    let ClockLists { names, clocks } = lists;
    let count = clocks.len() as u32;
    let mut seen = Seen {
        names: copied(alloc, names.as_slice())?,
        claims: Items::new(alloc),
    };
    let (variables, rest) = variables(alloc, count, &mut seen, rest)?;
    let (streams, rest) = streams(alloc, count, &mut seen, rest)?;
    let (functions, rest) = functions(alloc, rest)?;
    let (lists, rest) = agents(alloc, count, variables.as_slice(), seen, rest)?;
    let AgentLists {
        names: _,
        agents,
        codes,
    } = lists;
    let (instrs, rest) = instrs(alloc, rest)?;
    end(rest)?;
    Ok(Image {
        unit: Unit {
            quantum,
            clocks,
            clock_names: names,
            variables,
            streams,
            functions: Items::new(alloc),
            agents,
        },
        code: Code {
            instrs,
            agents: codes,
            functions,
        },
    })
}

/// The fault that an error is where there are so many bytes.
fn fault_from(error: ReadError, len: usize) -> ImageFault
    requires within { IsWithin len error }
    requires few { len ≤ FILE_BYTES }
    ensures { result ≡ fault_from len error }
{
    match error {
        ReadError::Bad(left) => ImageFault::Bad((len - left) as u32),
        ReadError::Memory => ImageFault::Memory,
    }
}

/// What reading came to, as an answer.
fn answer_of(reading: Result<Image, ReadError>, len: usize) -> Result<Image, ImageFault>
    requires within { IfErr reading (λ error. IsWithin len error) }
    requires few { len ≤ FILE_BYTES }
    ensures { result ≡ answer_of len reading }
{
    match reading {
        Ok(image) => Ok(image),
        Err(error) => Err(fault_from(error, len)),
    }
}

/// The image that the bytes spell, or where they are bad; at most 262,144 bytes. The only other error is want of memory.
pub fn decode(alloc: Global, bytes: &[u8]) -> Result<Image, ImageFault>
    requires { length bytes.now ≤ FILE_BYTES }
    // What is answered holds of the bytes.
    ensures spelled { IfOk result (λ it. spells_image it bytes.now) }
    ensures fault { IfErr result (λ fault. IsFault bytes.now fault) }

    // What holds of the bytes is answered, unless memory runs out.
    ensures only { (it : image_type) → spells_image it bytes.now → GivesImage result it }
    ensures bad { (place : ℕ) → IsBadAt bytes.now place → GivesBad result place }
{
    answer_of(image(alloc, bytes), bytes.len())
}
