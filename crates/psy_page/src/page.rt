//! A text that grows by templates.

ghost use Rattle.std.specs.Prelude.{◌≡◌, ◌++◌, [], OnOk, map};
ghost use Rattle.psy_page.specs.Spelling.{spelled};
ghost use Rattle.psy_page.specs.Templates.{fill};

use crate::piece::Piece;
use crate::template;
use psy_base::Memory;
use std::alloc::Global;
use std::marker::Model;

/// A text that grows by templates. Contracts see it as the list of its bytes.
#[derive(Debug, Drop)]
pub struct Page {
    bytes: Vec<u8>,
}

impl Model for Page {
    ghost use Rattle.std.specs.Prelude.{List, ℕ};

    ghost Value = { List ℕ };

    ghost view = { λ p. p.bytes.items };
}

impl Page {
    /// A page without bytes.
    pub fn new(alloc: Global) -> Page
        ensures { result ≡ [] }
    {
        Page {
            bytes: Vec::new(alloc),
        }
    }

    /// The page's bytes.
    pub fn bytes(&self) -> &[u8]
        ensures { result.now ≡ self.now }
    {
        self.bytes.as_slice()
    }

    /// Adds a template with these in its holes: each `$` is a hole, and holes without a piece stay empty.
    pub fn fill(&mut self, template: &[u8], holes: &[Piece]) -> Result<(), Memory>
        ensures { OnOk result (self.new ≡ self.old ++ fill template.now (map spelled holes.now)) }
    {
        template::fill(&mut self.bytes, template, holes)?;
        Ok(())
    }

    /// Adds these bytes as they are.
    pub fn add(&mut self, bytes: &[u8]) -> Result<(), Memory>
        ensures { OnOk result (self.new ≡ self.old ++ bytes.now) }
    {
        self.bytes.extend_from_slice(bytes)?;
        Ok(())
    }
}
