//! Tries cases on `psyc`: programs, words, files and devices, and the answers that are wanted; and last a run that is too long for a command.
#![tactic(auto)]

mod left;
mod long;
mod over;

use psy_base::Memory;
use psy_cases::{Answer, Asked, Command, run_list};
use psy_door::{FileShelf, StdSink};
use psy_run::laws;
use std::alloc::Global;
use std::env;
use std::process::ExitCode;
use std::rt::Env;

/// The command over forms in memory.
#[derive(Drop)]
struct Psyc;

impl Command for Psyc {
    fn answer(&mut self, alloc: Global, asked: Asked<'_>) -> Result<Answer, Memory> {
        if asked.is_clean {
            over::clean_devices(alloc, asked)
        } else {
            over::devices(alloc, asked)
        }
    }
}

// The first word after the program's name.
fn list(rt: &(impl Env + AllocGlobal)) -> Option<String> {
    env::args(rt).ok()?.nth(1)
}

fn main(rt: HostRuntime) -> ExitCode {
    laws::one_answer();
    let Some(list) = list(&rt) else {
        return ExitCode::from(2);
    };
    let mut shelf = FileShelf::new(&rt);
    let mut out = StdSink::new(rt.stdout());
    let status = run_list(rt.alloc(), list.as_str(), &mut Psyc, &mut shelf, &mut out);
    if status != 0 {
        return ExitCode::from(status);
    }
    let Some(ran) = long::written(rt.alloc()) else {
        return ExitCode::from(8);
    };
    let text = ran.bytes();
    match str::from_utf8(long::end(text)) {
        Ok(end) => match print!(rt; "{} bytes\n{end}", text.len()) {
            Ok(()) => ExitCode::from(0),
            Err(_) => ExitCode::from(4),
        },
        Err(_) => ExitCode::from(1),
    }
}
