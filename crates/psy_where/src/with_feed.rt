//! A line and its line feed.
ghost use Rattle.std.specs.Prelude.{◌≡◌, ◌++◌, IfOk, codes};

use std::alloc::{AllocError, Global};

/// A line with its line feed.
pub fn with_feed(alloc: Global, line: &[u8]) -> Result<Vec<u8>, AllocError>
    ensures { IfOk result (λ whole. whole.items ≡ line.now ++ codes "\n") }
{
    let mut whole = Vec::from_slice(alloc, line)?;
    whole.push(b'\n')?;
    Ok(whole)
}
