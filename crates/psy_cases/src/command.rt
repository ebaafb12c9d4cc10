//! What cases are tried on.
use crate::answer::Answer;
use psy_base::{Memory, Text};
use std::alloc::Global;

/// What a command is asked: its words, the files that it may read, and how its devices fail.
#[derive(Drop)]
pub struct Asked<'a> {
    /// The words of the command line.
    pub words: &'a [String],
    /// The files that it may read, by name.
    pub files: Vec<(Text, Vec<u8>)>,
    /// The devices are those whose calls never fail.
    pub is_clean: bool,
    /// The numbers of the calls that fail to read a file, counted from 0.
    pub unread: Vec<u32>,
    /// How many bytes the sink has room for.
    pub room: usize,
    /// How many bytes one call of the sink takes at most.
    pub most: usize,
    /// The numbers of the sink's calls that fail, counted from 0.
    pub fails: Vec<u32>,
}

/// A command over files and a sink in memory.
pub trait Command {
    /// Answers what is asked.
    fn answer(&mut self, alloc: Global, asked: Asked<'_>) -> Result<Answer, Memory>;
}
