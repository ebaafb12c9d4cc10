//! What later fields must know of earlier ones.
ghost use Rattle.std.specs.Prelude.{◌≡◌, ◌++◌, ◌∷◌, [], IfOk, OnOk, option_to_list};
ghost use Rattle.psy_image.specs.Images.{seeing};

use psy_base::{Items, Memory, Text};
use std::alloc::Global;

/// An agent that owns a variable or receives a stream, and how many bytes were left from the field on that says so.
#[derive(Clone, Copy, Debug, PartialEq, Eq)]
pub struct Claim {
    pub agent: u32,
    pub left: usize,
}

/// What has been read of the declarations, as far as later fields are judged by it.
#[derive(Debug, Drop)]
pub struct Seen {
    /// All names so far.
    pub names: Items<Text>,
    /// All owners and receivers so far, in their order.
    pub claims: Items<Claim>,
}

/// Adds a name, and perhaps an agent.
pub fn see(alloc: Global, seen: &mut Seen, name: &Text, claim: Option<Claim>) -> Result<(), Memory>
    ensures { OnOk result (seen.new ≡ seeing seen.old name.now (option_to_list claim)) }
{
    seen.names.push(Text::from_bytes(alloc, name.bytes())?)?;
    if let Some(claim) = claim {
        seen.claims.push(claim)?;
    }
    Ok(())
}

/// A copy of some names.
pub fn copied(alloc: Global, names: &[Text]) -> Result<Items<Text>, Memory>
    ensures { IfOk result (λ copies. copies ≡ names.now) }
{
    let mut copies = Items::new(alloc);
    'names: for name in names {
        copies.push(Text::from_bytes(alloc, name.bytes())?)?;
    }
    Ok(copies)
}
