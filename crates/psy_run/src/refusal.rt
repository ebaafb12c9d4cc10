//! Why a command isn't served.
ghost use Rattle.std.specs.Prelude.{◌≡◌, ◌≤◌, length, IfOk, Some as some};
ghost use Rattle.psy_base.specs.declared.limits.TheConstants.{WORD_BYTES};
ghost use Rattle.psy_run.specs.Refusals.{status_of, status_of_plan, stop_of, line_of, long_line, file_name};
ghost use Rattle.psy_log.specs.Forms.{name_of, limit_line, read_line, refused_line, line_of as note_line};
ghost use Rattle.psy_run.specs.declared.refusal.Stop.TheVariants.{Memory as no_memory};

use psy_base::{Memory, Text, limits};
use psy_log::{Line, Note};
use psy_plan::Refusal as Cause;
use psy_script::LineKind;
use std::alloc::Global;
use std::marker::Model;

/// What a file is read for.
#[derive(Clone, Copy, Debug, PartialEq, Eq)]
pub enum File {
    Program,
    Image,
    Inputs,
    Script,
    Trace,
    State,
}

impl File {
    /// What it is called in a line.
    pub fn name(self) -> &'static [u8]
        ensures name { result.now ≡ file_name self }
        ensures short { length result.now ≤ WORD_BYTES }
    {
        match self {
            File::Program => b"program",
            File::Image => b"image",
            File::Inputs => b"inputs",
            File::Script => b"script",
            File::Trace => b"trace",
            File::State => b"state",
        }
    }
}

/// The name of an agent, which is at most 32 bytes long. Contracts see the list of its bytes.
#[derive(Debug, Drop)]
pub struct AgentName {
    text: Text,
}

impl Model for AgentName {
    ghost use Rattle.std.specs.Prelude.{List, ℕ, ◌≤◌, length};
    ghost use Rattle.psy_base.specs.declared.limits.TheConstants.{WORD_BYTES};

    ghost Value = { List ℕ };

    ghost view = { λ n. n.text };

    ghost invariant = { λ n. length n.text ≤ WORD_BYTES };
}

impl AgentName {
    /// The name that these bytes spell. The only error is want of memory.
    pub fn of(alloc: Global, bytes: &[u8]) -> Result<AgentName, Memory>
        requires { length bytes.now ≤ WORD_BYTES }
        ensures { IfOk result (λ n. n ≡ bytes.now) }
    {
        Ok(AgentName {
            text: Text::from_bytes(alloc, bytes)?,
        })
    }

    /// The bytes that spell it.
    pub fn bytes(&self) -> &[u8]
        ensures is { result.now ≡ self.now }
        ensures short { length result.now ≤ WORD_BYTES }
    {
        self.text.bytes()
    }
}

/// What is refused, of the words and the files that they name. Contracts read the status and the line of each from one
/// definition.
#[derive(Debug, Drop)]
pub enum Refusal {
    /// The words are of no listed form.
    Words,
    /// The file has more than 262,144 bytes.
    TooLong(File),
    /// A step of the plan refuses: the text is no program, or the program can't be planned.
    Unplanned(Cause),
    /// The first line of the file that is at fault, counted from 1.
    Line {
        file: File,
        kind: LineKind,
        line: u32,
    },
    /// The inputs or the script have more than 10,000 lines.
    Lines,
    /// The run would have more than 100,000,000 cycles.
    Cycles,
    /// The bytes are no image: the first bad field begins behind so many.
    Image(u32),
    /// The code of an image isn't verified: of its faults the least by place, then number.
    Code {
        number: u32,
        place: u32,
    },
    /// The image of a program would have more than 262,144 bytes.
    Large,
    /// The text isn't a legal trace: the first line that has a fault, counted from 1, and the least of its faults.
    Trace {
        number: u32,
        line: u32,
    },
    /// The trace of a run would have more than 262,144 bytes.
    LongTrace,
    /// The bytes are no state that the program's runs may go on from: of their faults the least by place, then number.
    State {
        number: u32,
        place: u32,
    },
    /// The state of a run would have more than 262,144 bytes.
    LongState,
    /// The date isn't quiet: the first agent whose action is under way there.
    Busy(AgentName),
}

/// Why a command stopped before anything was written.
#[derive(Debug, Drop)]
pub enum Stop {
    Refused(Refusal),
    /// A file that the words name couldn't be read.
    Unread(File),
    /// Want of memory.
    Memory,
}

impl From<Memory> for Stop {
    ghost from_gives = { λ _ stop. stop ≡ no_memory };

    fn from(_memory: Memory) -> Stop {
        Stop::Memory
    }
}

impl Refusal {
    /// The status with which the program ends.
    pub fn status(&self) -> u8
        ensures { result ≡ status_of self.now }
    {
        match self {
            Refusal::Unplanned(cause) => status_of_plan(*cause),
            Refusal::Words => 2,
            Refusal::Line { .. } | Refusal::Trace { .. } | Refusal::State { .. } => 6,
            Refusal::Image(_) | Refusal::Code { .. } => 1,
            Refusal::TooLong(_)
            | Refusal::Lines
            | Refusal::Cycles
            | Refusal::Large
            | Refusal::LongTrace
            | Refusal::LongState => 7,
            Refusal::Busy(_) => 9,
        }
    }

    /// The line that says it.
    pub fn line(&self) -> Line
        ensures { result ≡ line_of self.now }
    {
        match self {
            Refusal::Words => line(&Note::Words),
            Refusal::TooLong(file) => long(*file),
            Refusal::Unplanned(cause) => line(&cause.note()),
            Refusal::Line { file, kind, line } => refused(file.name(), kind.number(), *line),
            Refusal::Lines => limit(b"lines", limits::LINES as u64),
            Refusal::Cycles => limit(b"run", limits::RUN),
            Refusal::Image(place) => line(&Note::RefusedImage { place: *place }),
            Refusal::Code { number, place } => refused(b"verify", *number, *place),
            Refusal::Trace { number, line } => refused(b"trace", *number, *line),
            Refusal::Large => long(File::Image),
            Refusal::LongTrace => long(File::Trace),
            Refusal::State { number, place } => refused(b"state", *number, *place),
            Refusal::LongState => long(File::State),
            Refusal::Busy(agent) => line(&Note::Busy {
                agent: agent.bytes(),
            }),
        }
    }
}

/// The line that says that a file couldn't be read.
pub fn unread_line(file: File) -> Line
    ensures { result ≡ read_line (file_name file) }
{
    line(&Note::Read { file: file.name() })
}

/// The line that says a note.
pub fn line(note: &Note) -> Line
    requires { length (name_of note.now) ≤ WORD_BYTES }
    ensures { result ≡ note_line note.now }
{
    let mut line = Line::new();
    line.set(note);
    line
}

fn limit(name: &[u8], number: u64) -> Line
    requires { length name.now ≤ WORD_BYTES }
    ensures { result ≡ limit_line name.now number }
{
    line(&Note::Limit { name, number })
}

// That a file has too many bytes, or would have them
fn long(file: File) -> Line
    ensures { result ≡ long_line file }
{
    limit(file.name(), limits::FILE_BYTES as u64)
}

fn refused(what: &[u8], number: u32, at: u32) -> Line
    requires { length what.now ≤ WORD_BYTES }
    ensures { result ≡ refused_line what.now number (some at) }
{
    let at = Some(at);
    line(&Note::Refused { what, number, at })
}

// The status of a refusal of the plan.
fn status_of_plan(cause: Cause) -> u8
    ensures { result ≡ status_of_plan cause }
{
    match cause {
        Cause::Lexical { .. } | Cause::Deep(_) | Cause::Syntax(_) | Cause::Rule { .. } => 1,
        Cause::Infeasible { .. } => 5,
        Cause::Many(_) | Cause::Nodes | Cause::Edges | Cause::Ring | Cause::Queue | Cause::Cells =>
            7,
    }
}

/// Why a command stops where the plan's steps do.
pub fn stopped(stop: psy_plan::Stop) -> Stop
    ensures { result ≡ stop_of stop }
{
    match stop {
        psy_plan::Stop::Refused(cause) => Stop::Refused(Refusal::Unplanned(cause)),
        psy_plan::Stop::Memory => Stop::Memory,
    }
}
