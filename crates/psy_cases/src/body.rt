//! Bodies: the bytes of files and of texts that are wanted, line by line.
use crate::escape::{add_line, add_times, unescape};
use crate::fault::Fault;
use crate::files::Files;
use crate::numbers::number_and_rest;
use crate::want::Want;
use std::alloc::Global;

/// What a body of a text is wanted for.
#[derive(Clone, Copy)]
pub enum Part {
    Exactly,
    Begins,
    Ends,
    Has,
    Holds,
}

impl Part {
    /// What is wanted of a text with this body.
    pub fn want(self, body: Vec<u8>) -> Want {
        match self {
            Part::Exactly => Want::Exactly(body),
            Part::Begins => Want::Begins(body),
            Part::Ends => Want::Ends(body),
            Part::Has => Want::Has(body),
            Part::Holds => Want::Holds(body),
        }
    }
}

/// What the body that is being read belongs to.
#[derive(Drop)]
pub enum Owner {
    Nothing,
    /// The file with this name.
    File(Vec<u8>),
    /// The text that the case wants.
    Text(Part),
}

/// A body that is being read.
#[derive(Drop)]
pub struct Body {
    /// What it belongs to.
    pub owner: Owner,
    pub bytes: Vec<u8>,
}

impl Body {
    /// The body of nothing.
    pub fn none(alloc: Global) -> Body {
        Body::of(alloc, Owner::Nothing)
    }

    /// An empty body of this.
    pub fn of(alloc: Global, owner: Owner) -> Body {
        Body {
            owner,
            bytes: Vec::new(alloc),
        }
    }

    // The bytes, where the body belongs to something.
    fn opened(&mut self) -> Result<&mut Vec<u8>, Fault> {
        match self.owner {
            Owner::Nothing => Err(Fault::NoBody),
            _ => Ok(&mut self.bytes),
        }
    }

    /// Adds a line.
    pub fn add_line(&mut self, text: &[u8]) -> Result<(), Fault> {
        add_line(text, self.opened()?)
    }

    /// Adds the bytes of a file.
    pub fn add_file(&mut self, name: &[u8], files: &Files) -> Result<(), Fault> {
        match files.get(name) {
            Some(file) => Ok(self.opened()?.extend_from_slice(file)?),
            None => Err(Fault::NoFile),
        }
    }

    /// Adds what follows the number, so many times.
    pub fn add_repeat(&mut self, repeat: &[u8]) -> Result<(), Fault> {
        let (times, text) = number_and_rest(repeat)?;
        add_times(times, text, self.opened()?)
    }

    /// Adds what follows the number, until there are so many bytes.
    pub fn add_fill(&mut self, alloc: Global, fill: &[u8]) -> Result<(), Fault> {
        let (length, text) = number_and_rest(fill)?;
        let mut piece = Vec::new(alloc);
        unescape(text, 0, &mut piece)?;
        fill_up(self.opened()?, piece.as_slice(), length)
    }
}

// Adds the piece again and again, until there are so many bytes.
fn fill_up(bytes: &mut Vec<u8>, piece: &[u8], length: u32) -> Result<(), Fault> {
    for _ in 0..length {
        let left = (length as usize).saturating_sub(bytes.len());
        let front = piece.get(..left).unwrap_or(piece);
        bytes.extend_from_slice(front)?;
    }
    Ok(())
}
