//! Tries all cases of the texts that a list names.
ghost use Rattle.std.specs.Prelude.{◌≡◌, Some, IsTrue};

use crate::answer::Answer;
use crate::case::{Case, Fronts};
use crate::command::{Asked, Command};
use crate::fault::Fault;
use crate::reader::Reader;
use crate::report;
use psy_base::{Memory, Text};
use psy_door::{FetchFault, Shelf, Sink};
use psy_log::{WriteFault, write_all_of};
use std::alloc::{AllocError, Global};
use std::str;

// Why the cases can't be tried to their end.
#[derive(Drop)]
enum Stop {
    Memory,
    Write,
}

impl From<Memory> for Stop {
    fn from(_memory: Memory) -> Stop {
        Stop::Memory
    }
}

impl From<AllocError> for Stop {
    fn from(_error: AllocError) -> Stop {
        Stop::Memory
    }
}

impl From<WriteFault> for Stop {
    fn from(_fault: WriteFault) -> Stop {
        Stop::Write
    }
}

// The answer is the one that is wanted.
fn is_met(case: &Case, answer: &Answer) -> bool
    ensures status { IsTrue result → case.now.status ≡ Some answer.now.status }
    ensures sound { IsTrue result → IsTrue answer.now.is_sound }
{
    let text = answer.text.as_slice();
    let is_met = case.wants.iter().all(|want| want.is_met(text));
    is_met && answer.is_sound && case.status == Some(answer.status)
}

// The words of a case.
fn words(case: &Case) -> &[String] {
    match &case.words {
        Some(words) => words.as_slice(),
        None => &[],
    }
}

// Asks what the case asks, over these files.
fn ask<C: Command>(
    alloc: Global,
    case: &Case,
    files: Vec<(Text, Vec<u8>)>,
    command: &mut C,
) -> Result<Answer, Memory> {
    let asked = Asked {
        words: words(case),
        files,
        is_clean: case.is_clean,
        unread: Vec::from_slice(alloc, case.unread.as_slice())?,
        room: case.room,
        most: case.most,
        fails: Vec::from_slice(alloc, case.fails.as_slice())?,
    };
    command.answer(alloc, asked)
}

// Tries cases, counts them and tells of those that fail.
#[derive(Drop)]
struct Trial<'a, C, S> {
    alloc: Global,
    command: &'a mut C,
    out: &'a mut S,
    cases: u64,
    failed: u64,
}

impl<'a, C: Command, S: Sink> Trial<'a, C, S> {
    fn say(&mut self, line: String) -> Result<(), Stop> {
        Ok(write_all_of(self.out, line.as_bytes())?)
    }

    // Counts a case or a text that fails, and tells of it.
    fn fail(&mut self, line: String) -> Result<(), Stop> {
        self.failed = self.failed.saturating_add(1);
        self.say(line)
    }

    // Tries a case over these files, and gives its answer.
    fn answer(
        &mut self,
        file: &str,
        case: &Case,
        files: Vec<(Text, Vec<u8>)>,
    ) -> Result<Answer, Stop> {
        let answer = ask(self.alloc, case, files, self.command)?;
        self.cases = self.cases.saturating_add(1);
        if is_met(case, &answer) == case.is_unmet {
            self.fail(report::failed(self.alloc, file, case, &answer)?)?;
        }
        Ok(answer)
    }

    // Tries a case for each of some fronts of a file.
    fn fronts(
        &mut self,
        file: &str,
        case: &Case,
        fronts: &Fronts,
        reader: &Reader,
    ) -> Result<(), Stop> {
        for length in fronts.from..=fronts.to {
            let files = reader.files_with_front(words(case), fronts.name.as_slice(), length)?;
            let _ = self.answer(file, case, files)?;
        }
        Ok(())
    }

    // Tries a case, and keeps its text where it says so.
    fn case(&mut self, file: &str, case: Case, reader: &mut Reader) -> Result<(), Stop> {
        if let Some(fronts) = &case.fronts {
            return self.fronts(file, &case, fronts, reader);
        }
        let files = reader.files(words(&case))?;
        let answer = self.answer(file, &case, files)?;
        if let Some(name) = &case.keep {
            reader.keep(name.as_slice(), answer.text.as_slice())?;
        }
        Ok(())
    }

    // Takes what the reader gave at a line: a case to try, or why there is none. True where the text can be read on.
    fn read(
        &mut self,
        file: &str,
        line: u64,
        read: Result<Option<Case>, Fault>,
        reader: &mut Reader,
    ) -> Result<bool, Stop> {
        match read {
            Ok(Some(case)) => self.case(file, case, reader)?,
            Ok(None) => {}
            Err(Fault::Memory) => return Err(Stop::Memory),
            Err(fault) => {
                self.fail(report::unread(self.alloc, file, line, fault)?)?;
                return Ok(false);
            }
        }
        Ok(true)
    }

    // Tries the cases of a text.
    fn text(&mut self, file: &str, text: &[u8]) -> Result<(), Stop> {
        let mut reader = Reader::new(self.alloc);
        let mut number: u64 = 0;
        for line in text.split(|b| *b == b'\n') {
            number = number.saturating_add(1);
            let read = reader.line(line);
            if !self.read(file, number, read, &mut reader)? {
                return Ok(());
            }
        }
        let read = reader.end();
        let _ = self.read(file, number, read, &mut reader)?;
        Ok(())
    }

    // Tries the cases of a file.
    fn file<F: Shelf>(&mut self, name: &[u8], shelf: &mut F) -> Result<(), Stop> {
        let Ok(name) = str::from_utf8(name) else {
            return self.fail(report::absent(self.alloc, "a file whose name isn't text")?);
        };
        match shelf.fetch(self.alloc, name) {
            Ok(text) => self.text(name, text.as_slice()),
            Err(FetchFault::Memory) => Err(Stop::Memory),
            Err(_) => self.fail(report::absent(self.alloc, name)?),
        }
    }

    // Tries the cases of the files whose names these lines are.
    fn files<F: Shelf>(&mut self, list: &[u8], shelf: &mut F) -> Result<(), Stop> {
        for name in list.split(|b| *b == b'\n') {
            if !name.is_empty() && !name.starts_with(b"#") {
                self.file(name, shelf)?;
            }
        }
        Ok(())
    }

    // Tries all, tells how many cases there were and failed, and gives the status to end with.
    fn list<F: Shelf>(&mut self, list: &str, shelf: &mut F) -> Result<u8, Stop> {
        match shelf.fetch(self.alloc, list) {
            Ok(names) => self.files(names.as_slice(), shelf)?,
            Err(FetchFault::Memory) => return Err(Stop::Memory),
            Err(_) => self.fail(report::absent(self.alloc, list)?)?,
        }
        self.say(report::total(self.alloc, self.cases, self.failed)?)?;
        Ok(if self.failed == 0 { 0 } else { 1 })
    }
}

/// Tries all cases of the texts whose names stand in this file, one a line. It writes a line for each case that fails and, last, how many
/// there were and failed. The status is 0 where none failed, else 1; 4 where the lines couldn't be written, and 8 where memory ran out.
pub fn run_list<C: Command, F: Shelf, S: Sink>(
    alloc: Global,
    list: &str,
    command: &mut C,
    shelf: &mut F,
    out: &mut S,
) -> u8 {
    let mut trial = Trial {
        alloc,
        command,
        out,
        cases: 0,
        failed: 0,
    };
    match trial.list(list, shelf) {
        Ok(status) => status,
        Err(Stop::Write) => 4,
        Err(Stop::Memory) => 8,
    }
}
