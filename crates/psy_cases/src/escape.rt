//! Bytes as they are written in a text of cases: each for itself, and some behind a `\`.
use crate::fault::Fault;
use psy_text::write::add_number;

// What the next byte belongs to.
#[derive(Clone, Copy)]
enum State {
    Plain,
    /// A `\` came.
    Escape,
    /// `\x` came.
    Hex,
    /// `\x` and a digit of this value came.
    HexDigit(u8),
}

/// Whether a line feed follows what was written.
#[derive(Clone, Copy)]
pub enum Ending {
    Whole,
    /// A `\` stood at the end.
    Open,
}

// The value of a digit of base 16.
fn hex_value(byte: u8) -> Result<u8, Fault> {
    match byte {
        b'0'..=b'9' => Ok(byte - b'0'),
        b'a'..=b'f' => Ok(byte - b'a' + 10),
        _ => Err(Fault::BadEscape),
    }
}

// Adds what this byte stands for behind a `\`.
fn escape(byte: u8, turn: u32, into: &mut Vec<u8>) -> Result<State, Fault> {
    match byte {
        b'n' => into.push(b'\n')?,
        b'r' => into.push(b'\r')?,
        b't' => into.push(b'\t')?,
        b's' => into.push(b' ')?,
        b'\\' => into.push(b'\\')?,
        b'e' => {}
        b'#' => add_number(into, u64::from(turn))?,
        b'x' => return Ok(State::Hex),
        _ => return Err(Fault::BadEscape),
    }
    Ok(State::Plain)
}

// Adds what the byte stands for.
fn step(state: State, byte: u8, turn: u32, into: &mut Vec<u8>) -> Result<State, Fault> {
    match state {
        State::Plain => {
            if byte == b'\\' {
                return Ok(State::Escape);
            }
            into.push(byte)?;
            Ok(State::Plain)
        }
        State::Escape => escape(byte, turn, into),
        State::Hex => Ok(State::HexDigit(hex_value(byte)?)),
        State::HexDigit(high) => {
            into.push(high.wrapping_mul(16).wrapping_add(hex_value(byte)?))?;
            Ok(State::Plain)
        }
    }
}

/// Adds the bytes that are written so. `\#` is the number of the turn.
pub fn unescape(text: &[u8], turn: u32, into: &mut Vec<u8>) -> Result<Ending, Fault> {
    let mut state = State::Plain;
    for byte in text {
        state = step(state, *byte, turn, into)?;
    }
    match state {
        State::Plain => Ok(Ending::Whole),
        State::Escape => Ok(Ending::Open),
        State::Hex | State::HexDigit(_) => Err(Fault::BadEscape),
    }
}

/// Adds the bytes of a line, and a line feed unless its last byte is a `\`.
pub fn add_line(text: &[u8], into: &mut Vec<u8>) -> Result<(), Fault> {
    match unescape(text, 0, into)? {
        Ending::Whole => Ok(into.push(b'\n')?),
        Ending::Open => Ok(()),
    }
}

/// Adds bytes so many times.
pub fn add_times(times: u32, text: &[u8], into: &mut Vec<u8>) -> Result<(), Fault> {
    for turn in 0..times {
        unescape(text, turn, into)?;
    }
    Ok(())
}
