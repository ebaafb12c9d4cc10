//! Numbers in a text of cases.
use crate::fault::Fault;
use psy_text::front::short;
use psy_text::whole;
use std::alloc::Global;

/// The number that these bytes are.
pub fn number(text: &[u8]) -> Result<u32, Fault> {
    match whole::short(text) {
        Some(number) => Ok(number),
        None => Err(Fault::BadNumber),
    }
}

/// The number at the front of these bytes, and what stands behind the blank that follows it.
pub fn number_and_rest(text: &[u8]) -> Result<(u32, &[u8]), Fault> {
    match short(text) {
        Some((number, [b' ', rest @ ..])) => Ok((number, rest)),
        _ => Err(Fault::BadNumber),
    }
}

/// The status that these bytes are.
pub fn status(text: &[u8]) -> Result<u8, Fault> {
    match u8::try_from(number(text)?) {
        Ok(status) => Ok(status),
        Err(_) => Err(Fault::BadNumber),
    }
}

/// The numbers that these bytes are, with a blank between two.
pub fn numbers(alloc: Global, text: &[u8]) -> Result<Vec<u32>, Fault> {
    let mut numbers = Vec::new(alloc);
    for word in text.split(|b| *b == b' ') {
        numbers.push(number(word)?)?;
    }
    Ok(numbers)
}
