//! The note that a line says.
ghost use Rattle.std.specs.Prelude.{◌≡◌, map};
ghost use Rattle.psy_log.specs.Forms.{says};
ghost use Rattle.psy_log.specs.Table.{fields_of};
ghost use Rattle.psy_notes.specs.Notes.{Fills};
ghost use Rattle.psy_notes.specs.Reading.{said_of, long_at, short_at, value_at, name_at, long_or_none_at, short_or_none_at, kind_at};

use crate::content::Content;
use psy_arith::Trap;
use psy_log::{Form, Note};

/// The note whose line has this form and says this.
pub fn note_of<'a>(form: Form, said: &[Content<'a>]) -> Note<'a>
    requires { Fills (fields_of form) (map said_of said.now) }
    ensures { says result ≡ (form, map said_of said.now) }
{
    match form {
        Form::StopOverrun => Note::StopOverrun {
            date: long(said, 0),
            agent: name(said, 1),
        },
        Form::StopTrap => Note::StopTrap {
            date: long(said, 0),
            agent: name(said, 1),
            kind: trap(said, 2),
        },
        Form::Value => Note::Value {
            date: long(said, 0),
            variable: name(said, 1),
            value: value(said, 2),
        },
        Form::Message => Note::Message {
            date: long(said, 0),
            stream: name(said, 1),
            value: value(said, 2),
        },
        Form::End => Note::End {
            until: long(said, 0),
        },
        Form::AgentEnd => Note::AgentEnd {
            agent: name(said, 0),
            count: long(said, 1),
            slack: long_or_none(said, 2),
        },
        Form::VariableEnd => Note::VariableEnd {
            variable: name(said, 0),
            size: short(said, 1),
            reach: short_or_none(said, 2),
        },
        Form::StreamEnd => Note::StreamEnd {
            stream: name(said, 0),
            size: short(said, 1),
            held: short(said, 2),
        },
        Form::VariableSize => Note::VariableSize {
            variable: name(said, 0),
            size: short(said, 1),
        },
        Form::StreamSize => Note::StreamSize {
            stream: name(said, 0),
            size: short(said, 1),
        },
        Form::Rate => Note::Rate {
            agent: name(said, 0),
            rate: long(said, 1),
            intercept: long(said, 2),
        },
        Form::Always => Note::Always,
        Form::Feasible => Note::Feasible {
            until: long(said, 0),
        },
        Form::Infeasible => Note::Infeasible {
            length: long(said, 0),
            demand: long(said, 1),
            supply: long(said, 2),
            processor: None,
        },
        Form::InfeasibleOn => Note::Infeasible {
            length: long(said, 0),
            demand: long(said, 1),
            supply: long(said, 2),
            processor: Some(short(said, 3)),
        },
        Form::AgentGraph => Note::AgentGraph {
            agent: name(said, 0),
            nodes: short(said, 1),
            edges: short(said, 2),
        },
        Form::Node => Note::Node {
            number: short(said, 0),
            point: short(said, 1),
            phase: long(said, 2),
            budget: short(said, 3),
            worst: long(said, 4),
            due: long(said, 5),
        },
        Form::EdgeOf => Note::EdgeOf {
            from: short(said, 0),
            to: short(said, 1),
            len: long(said, 2),
        },
        Form::Words => Note::Words,
        Form::Read => Note::Read {
            file: name(said, 0),
        },
        Form::Limit => Note::Limit {
            name: name(said, 0),
            number: long(said, 1),
        },
        Form::Refused => Note::Refused {
            what: name(said, 0),
            number: short(said, 1),
            at: None,
        },
        Form::RefusedAt => Note::Refused {
            what: name(said, 0),
            number: short(said, 1),
            at: Some(short(said, 2)),
        },
        Form::RefusedImage => Note::RefusedImage {
            place: short(said, 0),
        },
        Form::Busy => Note::Busy {
            agent: name(said, 0),
        },
        Form::Legal => Note::Legal {
            acts: short(said, 0),
            looks: short(said, 1),
        },
    }
}

// The number of 64 bits that is said at a place; 0 where there is none.
fn long(said: &[Content], place: usize) -> u64
    ensures { result ≡ long_at (map said_of said.now) place }
{
    match said.get(place) {
        Some(Content::Long(number)) => *number,
        _ => 0,
    }
}

// The same of 32 bits.
fn short(said: &[Content], place: usize) -> u32
    ensures { result ≡ short_at (map said_of said.now) place }
{
    match said.get(place) {
        Some(Content::Short(number)) => *number,
        _ => 0,
    }
}

// The value that is said at a place; 0 where there is none.
fn value(said: &[Content], place: usize) -> i32
    ensures { result ≡ value_at (map said_of said.now) place }
{
    match said.get(place) {
        Some(Content::Value(value)) => *value,
        _ => 0,
    }
}

// The name that is said at a place; no bytes where there is none.
fn name<'a>(said: &[Content<'a>], place: usize) -> &'a [u8]
    ensures { result.now ≡ name_at (map said_of said.now) place }
{
    match said.get(place) {
        Some(Content::Name(name)) => name,
        _ => b"",
    }
}

// The number of 64 bits, or none, that is said at a place.
fn long_or_none(said: &[Content], place: usize) -> Option<u64>
    ensures { result ≡ long_or_none_at (map said_of said.now) place }
{
    match said.get(place) {
        Some(Content::LongOrNone(number)) => *number,
        _ => None,
    }
}

// The same of 32 bits.
fn short_or_none(said: &[Content], place: usize) -> Option<u32>
    ensures { result ≡ short_or_none_at (map said_of said.now) place }
{
    match said.get(place) {
        Some(Content::ShortOrNone(number)) => *number,
        _ => None,
    }
}

// The kind of trap that is said at a place; a take where there is none.
fn trap(said: &[Content], place: usize) -> Trap
    ensures { result ≡ kind_at (map said_of said.now) place }
{
    match said.get(place) {
        Some(Content::Kind(kind)) => *kind,
        _ => Trap::Take,
    }
}
