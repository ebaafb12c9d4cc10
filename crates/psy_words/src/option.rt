//! What is told of the name of a file that begins as an option does elsewhere.
ghost use Rattle.std.specs.Prelude.{◌≡◌, IfOk, map, string_bytes};
ghost use Rattle.psy_page.specs.Told.{said};
ghost use Rattle.psy_words.specs.Options.{form_as_option, option_told};

use crate::form::{How, form_of};
use crate::sentences::NO_OPTIONS;
use psy_base::Memory;
use psy_page::Piece::Raw;
use psy_page::{Told, hint};
use std::alloc::Global;

/// A line that tells that there are no options, and the form of the command, where the name of a file among these words begins as an option does elsewhere;
/// nothing where it doesn't. The only error is want of memory.
pub fn option_told(alloc: Global, words: &[String], name: &[u8]) -> Result<Vec<u8>, Memory>
    ensures { IfOk result (λ text. text.items ≡ option_told (map string_bytes words.now) name.now) }
{
    match words {
        [word, ..] if name.starts_with(b"-") => Ok(hint(
            alloc,
            form_as_option(word.as_str().as_bytes()),
        )?),
        _ => Ok(Vec::new(alloc)),
    }
}

// That there are no options: the form of the command, where there is one.
fn form_as_option(word: &[u8]) -> Option<Told<'static>>
    ensures { said result ≡ form_as_option word.now }
{
    Some(Told::One(NO_OPTIONS, Raw(form_of(How::Same, word)?)))
}
