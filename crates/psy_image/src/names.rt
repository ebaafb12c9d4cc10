//! Which texts are names.
ghost use Rattle.std.specs.Prelude.{◌≡◌, bytes_eq};
ghost use Rattle.std.specs.List.{list_all, list_any};
ghost use Rattle.psy_tree.specs.Lexemes.{is_in_word};
ghost use Rattle.psy_image.specs.Names.{is_name, is_word};

use psy_base::Text;
use psy_base::limits::WORD_BYTES;
use psy_text::run::{begins_word, is_in_word};
use psy_token::reserved;

fn are_in_word(bytes: &[u8]) -> bool
    ensures { result ≡ list_all is_in_word bytes.now }
{
    bytes.iter().all(|b| is_in_word(*b))
}

fn is_word(text: &[u8]) -> bool
    ensures { result ≡ is_word text.now }
{
    match text {
        [] => false,
        [first, rest @ ..] => begins_word(*first) && are_in_word(rest),
    }
}

/// Is the text a name: a word of at most 32 bytes that isn't reserved?
pub fn is_name(text: &[u8]) -> bool
    ensures { result ≡ is_name text.now }
{
    text.len() <= WORD_BYTES && is_word(text) && reserved(text).is_none()
}

/// Is the text among these names?
pub fn is_among(text: &[u8], names: &[Text]) -> bool
    ensures { result ≡ list_any (bytes_eq text.now) names.now }
{
    names.iter().any(|name| text == name.bytes())
}
