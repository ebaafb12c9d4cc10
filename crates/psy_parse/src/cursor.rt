//! The tokens that are left to read.
ghost use Rattle.std.specs.Prelude.{◌+◌, ◌≤◌, length};

use psy_tree::Token;

/// The tokens that are left, and the number of the first of them.
#[derive(Clone, Copy)]
pub struct Cursor<'a> {
    pub rest: &'a [Token],
    pub number: u32,
    ghost in_range: { number + length rest.now ≤ 4294967295 },
}
