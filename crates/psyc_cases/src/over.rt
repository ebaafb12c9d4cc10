//! Calls of `psyc` over forms in memory.
use crate::left::is_sound;
use psy_base::Memory;
use psy_cases::{Answer, Asked};
use psy_door::{CleanShelf, CleanSink, ShelfMap, SinkVec};
use psy_kernel::Kernel;
use psy_run::{psyc, psyc_over_clean};
use std::alloc::Global;

// What a call answered: its status, what it wrote, and whether it left a kernel exactly where it is to.
fn answered(
    alloc: Global,
    words: &[String],
    status: u8,
    written: &[u8],
    left: &Option<Kernel>,
) -> Result<Answer, Memory> {
    Ok(Answer {
        status,
        text: Vec::from_slice(alloc, written)?,
        is_sound: is_sound(words, status, left),
    })
}

/// What is answered over a shelf and a sink of which some calls may fail.
pub fn devices(alloc: Global, asked: Asked<'_>) -> Result<Answer, Memory> {
    let mut shelf = ShelfMap::new(asked.files, asked.unread);
    let mut out = SinkVec::new(alloc, asked.room, asked.most.max(1), asked.fails)?;
    let mut left = None;
    let status = psyc(alloc, asked.words, &mut shelf, &mut out, &mut left);
    answered(alloc, asked.words, status, out.bytes(), &left)
}

/// What is answered over a shelf and a sink whose calls never fail.
pub fn clean_devices(alloc: Global, asked: Asked<'_>) -> Result<Answer, Memory> {
    let mut shelf = CleanShelf::new(asked.files);
    let mut out = CleanSink::new(alloc, asked.room)?;
    let mut left = None;
    let status = psyc_over_clean(alloc, asked.words, &mut shelf, &mut out, &mut left);
    answered(alloc, asked.words, status, out.bytes(), &left)
}
