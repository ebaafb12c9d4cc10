//! Tries cases on `psyview`: files and words, and the answers that are wanted.
#![tactic(auto)]

use psy_base::Memory;
use psy_cases::{Answer, Asked, Command, run_list};
use psy_door::{FileShelf, ShelfMap, SinkVec, StdSink};
use psy_pieces::ShelfReel;
use psy_view::psyview;
use std::alloc::Global;
use std::env;
use std::process::ExitCode;
use std::rt::Env;

// So many bytes of a file come together, where it is read piece by piece.
const PIECE_BYTES: usize = 1_000;

/// The command over forms in memory.
#[derive(Drop)]
struct Psyview;

impl Command for Psyview {
    fn answer(&mut self, alloc: Global, asked: Asked<'_>) -> Result<Answer, Memory> {
        let shelf = ShelfMap::new(asked.files, asked.unread);
        let mut shelf = ShelfReel::new(alloc, shelf, PIECE_BYTES, Vec::new(alloc));
        let mut out = SinkVec::new(alloc, asked.room, asked.most.max(1), asked.fails)?;
        let status = psyview(alloc, asked.words, &mut shelf, &mut out);
        Ok(Answer {
            status,
            text: Vec::from_slice(alloc, out.bytes())?,
            is_sound: true,
        })
    }
}

// The first word after the program's name.
fn list(rt: &(impl Env + AllocGlobal)) -> Option<String> {
    env::args(rt).ok()?.nth(1)
}

fn main(rt: HostRuntime) -> ExitCode {
    let Some(list) = list(&rt) else {
        return ExitCode::from(2);
    };
    let mut shelf = FileShelf::new(&rt);
    let mut out = StdSink::new(rt.stdout());
    let status = run_list(
        rt.alloc(),
        list.as_str(),
        &mut Psyview,
        &mut shelf,
        &mut out,
    );
    ExitCode::from(status)
}
