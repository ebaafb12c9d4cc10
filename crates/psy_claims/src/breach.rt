//! What is told of an assertion that isn't kept.
ghost use Rattle.std.specs.Prelude.{◌≡◌, IfOk, OnOk, ◌++◌, codes};
ghost use Rattle.std.specs.List.{flat_map};
ghost use Rattle.psy_log.specs.Forms.{trap_name};
ghost use Rattle.psy_claims.specs.Breaches.{breach_text, broken_by_text, failure_text, missing_text, place_text, stop_text, value_text};

use crate::claimed::Claimed;
use itoa::Buffer;
use psy_arith::Trap;
use psy_assert::{Claim, Verdict};
use psy_log::Note;
use std::alloc::{AllocError, Global};

/// The line of an assertion, which stands in a file of this name, and what breaks it.
pub fn failure_text(
    alloc: Global,
    name: &[u8],
    claimed: &Claimed,
    verdict: &Verdict,
) -> Result<Vec<u8>, AllocError>
    ensures { IfOk result (λ text. text.items ≡ failure_text name.now claimed.now verdict.now) }
{
    let mut text = Vec::new(alloc);
    add_place(&mut text, name, claimed.number, claimed.line)?;
    add_breach(&mut text, &claimed.assertion.claim, verdict)?;
    Ok(text)
}

// Adds these pieces, one behind the other.
fn add_pieces(out: &mut Vec<u8>, pieces: &[&[u8]]) -> Result<(), AllocError>
    ensures { OnOk result (out.new.items ≡ out.old.items ++ flat_map (λ piece. piece.now) pieces.now) }
{
    for piece in pieces {
        out.extend_from_slice(piece)?;
    }
    Ok(())
}

// Adds the line of an assertion, and where it stands.
fn add_place(out: &mut Vec<u8>, name: &[u8], number: usize, line: &[u8]) -> Result<(), AllocError>
    ensures { OnOk result (out.new.items ≡ out.old.items ++ place_text name.now number line.now) }
{
    let mut digits = Buffer::new();
    let number = digits.format(number as u64).as_bytes();
    add_pieces(out, &[name, b":", number, b": ", line, b"\n"])
}

// Adds what breaks a claim.
fn add_breach(out: &mut Vec<u8>, claim: &Claim, verdict: &Verdict) -> Result<(), AllocError>
    ensures { OnOk result (out.new.items ≡ out.old.items ++ breach_text claim.now verdict.now) }
{
    match *verdict {
        Verdict::Kept => Ok(()),
        Verdict::Broken { note } => add_note(out, &note),
        Verdict::Missing => add_missing(out, claim),
    }
}

// Adds what is missing.
fn add_missing(out: &mut Vec<u8>, claim: &Claim) -> Result<(), AllocError>
    ensures { OnOk result (out.new.items ≡ out.old.items ++ missing_text claim.now) }
{
    match *claim {
        Claim::Values { variable, .. } => add_pieces(out, &[variable, b" has no value\n"]),
        Claim::SomeMessage { stream } => add_pieces(out, &[stream, b" has no message\n"]),
        _ => Ok(()),
    }
}

// Adds the note that breaks a claim.
fn add_note(out: &mut Vec<u8>, note: &Note) -> Result<(), AllocError>
    ensures { OnOk result (out.new.items ≡ out.old.items ++ broken_by_text note.now) }
{
    match *note {
        Note::Value {
            date,
            variable,
            value,
        } => add_value(out, date, variable, b" is ", value),
        Note::Message {
            date,
            stream,
            value,
        } => add_value(out, date, stream, b" has the message ", value),
        Note::StopOverrun { date, agent } => add_stop(out, date, agent, b"overrun"),
        Note::StopTrap { date, agent, kind } => add_stop(out, date, agent, trap_text(kind)),
        _ => Ok(()),
    }
}

fn add_value(
    out: &mut Vec<u8>,
    date: u64,
    name: &[u8],
    told: &[u8],
    value: i32,
) -> Result<(), AllocError>
    ensures { OnOk result (out.new.items ≡ out.old.items ++ value_text date name.now told.now value) }
{
    let mut digits = Buffer::new();
    let mut value_digits = Buffer::new();
    let date = digits.format(date).as_bytes();
    let value = value_digits.format(value).as_bytes();
    add_pieces(out, &[date, b": ", name, told, value, b"\n"])
}

fn add_stop(out: &mut Vec<u8>, date: u64, agent: &[u8], how: &[u8]) -> Result<(), AllocError>
    ensures { OnOk result (out.new.items ≡ out.old.items ++ stop_text date agent.now how.now) }
{
    let mut digits = Buffer::new();
    let date = digits.format(date).as_bytes();
    add_pieces(out, &[date, b": ", agent, b" is stopped: ", how, b"\n"])
}

// How a trap stopped an agent.
fn trap_text(kind: Trap) -> &'static [u8]
    ensures { result.now ≡ codes "trap " ++ trap_name kind }
{
    match kind {
        Trap::Divide => b"trap divide",
        Trap::Index => b"trap index",
        Trap::Loop => b"trap loop",
        Trap::Take => b"trap take",
    }
}
