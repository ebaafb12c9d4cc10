//! The files that are asked about.
ghost use Rattle.std.specs.Prelude.{◌≡◌, ◌≤◌, IfOk};
ghost use Rattle.psy_view.specs.Asked.{file_of};
ghost use Rattle.psy_view.specs.Fetching.{Fetches, FetchesRun};

use crate::asked::TEXT_BYTES;
use crate::refusals::long_line;
use crate::view::View;
use psy_base::Memory;
use psy_door::{FetchFault, Shelf};
use psy_export::unread_line;
use std::alloc::Global;

/// What came of reading a file.
#[derive(Debug, Drop)]
pub enum Fetched {
    /// Its bytes.
    Text(Vec<u8>),
    /// What is said where it can't be read, or is too long.
    Unread(View),
}

/// Reads the file with this name, of which it may have so many bytes. The only error is want of memory.
pub fn fetch<F: Shelf>(
    alloc: Global,
    shelf: &mut F,
    name: &str,
    most: usize,
) -> Result<Fetched, Memory>
    ensures fetched { IfOk result (λ fetched. Fetches (F.files shelf.old) (F.faults shelf.old) (F.faults shelf.new) (file_of name.now most) fetched) }
    ensures shelf { (F.faults shelf.old ≤ F.faults shelf.new) × (F.files shelf.new ≡ F.files shelf.old) }
{
    match shelf.fetch_most(alloc, name, most) {
        Ok(bytes) => Ok(Fetched::Text(bytes)),
        Err(FetchFault::Failed) => Ok(Fetched::Unread(View {
            status: 3,
            text: unread_line(alloc, name.as_bytes())?,
        })),
        Err(FetchFault::TooLong) => Ok(Fetched::Unread(View {
            status: 1,
            text: long_line(alloc, name.as_bytes(), most)?,
        })),
        Err(FetchFault::Memory) => Err(Memory),
    }
}

/// What came of reading the file of a run, which may have any number of bytes.
#[derive(Debug, Drop)]
pub enum FetchedRun {
    /// Its bytes; none where it has more than are read together, and is to be read piece by piece.
    Read(Option<Vec<u8>>),
    /// What is said where it can't be read.
    Unread(View),
}

/// Reads the file of the run with this name. The only error is want of memory.
pub fn fetch_run<F: Shelf>(alloc: Global, shelf: &mut F, name: &str) -> Result<FetchedRun, Memory>
    ensures fetched { IfOk result (λ fetched. FetchesRun (F.files shelf.old) (F.faults shelf.old) (F.faults shelf.new) name.now fetched) }
    ensures shelf { (F.faults shelf.old ≤ F.faults shelf.new) × (F.files shelf.new ≡ F.files shelf.old) }
{
    match shelf.fetch_most(alloc, name, TEXT_BYTES) {
        Ok(bytes) => Ok(FetchedRun::Read(Some(bytes))),
        Err(FetchFault::TooLong) => Ok(FetchedRun::Read(None)),
        Err(FetchFault::Failed) => Ok(FetchedRun::Unread(View {
            status: 3,
            text: unread_line(alloc, name.as_bytes())?,
        })),
        Err(FetchFault::Memory) => Err(Memory),
    }
}
