//! What is marked of a line.
ghost use Rattle.std.specs.Prelude.{◌≡◌};
ghost use Rattle.psy_where.specs.declared.recall.What.{What};
ghost use Rattle.psy_where.specs.Explained.{marked};

use crate::recall::What;
use psy_text::run::word_len;

/// How many columns of a line are marked, from the place on; None for all.
pub fn marked(what: What, line: &[u8]) -> Option<usize>
    ensures { result ≡ marked what line.now }
{
    match what {
        What::Inputs | What::Script => None,
        What::Lex | What::Parse | What::Rule => Some(word_len(line)),
    }
}
