//! An assertion, and where it stands.
use psy_assert::Assertion;

/// An assertion, its line, and the line's number, counted from 1.
#[derive(Clone, Copy, Debug)]
pub struct Claimed<'a> {
    pub number: usize,
    pub line: &'a [u8],
    pub assertion: Assertion<'a>,
}
