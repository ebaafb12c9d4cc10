//! The files of a text of cases.
use psy_base::{Memory, Text};
use std::alloc::Global;

/// Files by name, each name once.
#[derive(Drop)]
pub struct Files {
    files: Vec<(Text, Vec<u8>)>,
}

impl Files {
    /// No files.
    pub fn new(alloc: Global) -> Files {
        Files {
            files: Vec::new(alloc),
        }
    }

    /// The bytes of the file with this name.
    pub fn get(&self, name: &[u8]) -> Option<&[u8]> {
        match self.files.iter().find(|file| file.0.bytes() == name) {
            Some(file) => Some(file.1.as_slice()),
            None => None,
        }
    }

    /// Makes these bytes the file with this name.
    pub fn set(&mut self, alloc: Global, name: &[u8], bytes: Vec<u8>) -> Result<(), Memory> {
        let name = Text::from_bytes(alloc, name)?;
        self.files.retain(|file| file.0.bytes() != name.bytes());
        self.files.push((name, bytes))?;
        Ok(())
    }

    /// Copies of the files whose names are among these words.
    pub fn named(&self, alloc: Global, words: &[String]) -> Result<Vec<(Text, Vec<u8>)>, Memory> {
        let mut named = Vec::new(alloc);
        for file in self.files.as_slice() {
            if is_named(file.0.bytes(), words) {
                named.push(copied(alloc, file)?)?;
            }
        }
        Ok(named)
    }
}

fn is_named(name: &[u8], words: &[String]) -> bool {
    words.iter().any(|word| word.as_bytes() == name)
}

fn copied(alloc: Global, file: &(Text, Vec<u8>)) -> Result<(Text, Vec<u8>), Memory> {
    let name = Text::from_bytes(alloc, file.0.bytes())?;
    Ok((name, Vec::from_slice(alloc, file.1.as_slice())?))
}
