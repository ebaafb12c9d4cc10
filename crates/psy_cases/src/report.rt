//! The lines that tell of cases that failed.
use crate::answer::Answer;
use crate::case::Case;
use crate::fault::Fault;
use crate::want::Want;
use psy_base::Memory;
use std::alloc::Global;

// How many bytes of a text a line shows.
const SHOWN: usize = 120;

// Adds a byte of a text, so that it stays on the line.
fn add_byte(shown: &mut String, byte: u8) -> Result<(), Memory> {
    match byte {
        b'\n' => shown.push_str("\\n")?,
        b' '..=b'~' => shown.push(char::from(byte))?,
        _ => shown.push('?')?,
    }
    Ok(())
}

// The front of a text.
fn shown(alloc: Global, text: &[u8]) -> Result<String, Memory> {
    let mut shown = String::new(alloc);
    for byte in text.iter().take(SHOWN) {
        add_byte(&mut shown, *byte)?;
    }
    if SHOWN < text.len() {
        shown.push_str("..")?;
    }
    Ok(shown)
}

// The first thing that the text isn't or hasn't.
fn wanted(alloc: Global, case: &Case, text: &[u8]) -> Result<String, Memory> {
    match case.wants.iter().find(|want| !want.is_met(text)) {
        Some(Want::Exactly(bytes)) => shown(alloc, bytes.as_slice()),
        Some(Want::Begins(front)) => shown(alloc, front.as_slice()),
        Some(Want::Ends(end)) => shown(alloc, end.as_slice()),
        Some(Want::Has(lines)) => shown(alloc, lines.as_slice()),
        Some(Want::Holds(piece)) => shown(alloc, piece.as_slice()),
        Some(Want::Count(_, front)) => shown(alloc, front.as_slice()),
        None => Ok(String::new(alloc)),
    }
}

/// The line of a case whose answer isn't the one that is wanted.
pub fn failed(alloc: Global, file: &str, case: &Case, answer: &Answer) -> Result<String, Memory> {
    let title = case.title.as_str();
    let status = case.status.unwrap_or(0);
    let want = wanted(alloc, case, answer.text.as_slice())?;
    let came = answer.status;
    let text = shown(alloc, answer.text.as_slice())?;
    let not = if case.is_unmet { "not " } else { "" };
    let rest = if answer.is_sound {
        ""
    } else {
        ", and left what it shouldn't"
    };
    Ok(format!(in alloc;
        "{file}: {title}: wanted {not}{status} {want}; came {came} {text}{rest}\n"
    )?)
}

/// The line of a text that can't be read on at this line.
pub fn unread(alloc: Global, file: &str, line: u64, fault: Fault) -> Result<String, Memory> {
    Ok(format!(in alloc; "{file}:{line}: {fault}\n")?)
}

/// The line of a text that can't be fetched.
pub fn absent(alloc: Global, file: &str) -> Result<String, Memory> {
    Ok(format!(in alloc; "{file}: it can't be read\n")?)
}

/// The last line.
pub fn total(alloc: Global, cases: u64, failed: u64) -> Result<String, Memory> {
    Ok(format!(in alloc; "{cases} cases, {failed} failed\n")?)
}
