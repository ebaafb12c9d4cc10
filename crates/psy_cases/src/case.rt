//! A case: what is asked, and what is wanted.
use crate::fault::Fault;
use crate::want::Want;
use std::alloc::Global;

/// The room of a sink where a case names none, and the most that one of its calls takes.
pub const AMPLE: usize = 1_048_576;

/// The fronts of a file, from one length to another.
#[derive(Drop)]
pub struct Fronts {
    pub name: Vec<u8>,
    pub from: u32,
    pub to: u32,
}

/// What stood of a case so far.
#[derive(Drop)]
pub struct Case {
    pub title: String,
    pub words: Option<Vec<String>>,
    /// Its devices are those whose calls never fail.
    pub is_clean: bool,
    pub room: usize,
    pub most: usize,
    pub fails: Vec<u32>,
    pub unread: Vec<u32>,
    pub fronts: Option<Fronts>,
    pub status: Option<u8>,
    pub wants: Vec<Want>,
    /// The answer isn't to be the one that is wanted: by such cases it is tried that others could fail.
    pub is_unmet: bool,
    /// The name of the file that the text becomes.
    pub keep: Option<Vec<u8>>,
}

impl Case {
    /// A case with this title, of which nothing else stands.
    pub fn new(alloc: Global, title: String) -> Case {
        Case {
            title,
            words: None,
            is_clean: false,
            room: AMPLE,
            most: AMPLE,
            fails: Vec::new(alloc),
            unread: Vec::new(alloc),
            fronts: None,
            status: None,
            wants: Vec::new(alloc),
            is_unmet: false,
            keep: None,
        }
    }

    /// It says what is asked.
    pub fn is_asked(&self) -> bool {
        self.words.is_some()
    }

    /// It says what is asked and which status is wanted.
    pub fn is_whole(&self) -> bool {
        self.words.is_some() && self.status.is_some()
    }
}
