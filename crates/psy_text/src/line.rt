//! The lines of a text.
ghost use Rattle.std.specs.Prelude.{◌≡◌, ◌<◌, [], ◌∷◌, length, MatchOption};
ghost use Rattle.psy_text.specs.Lines.{is_skipped, lines_of, without_return};

use crate::run::line_len;
use crate::word::{Cut, cut_word};

/// The first line of a text, and what follows it. None exactly where the text is empty.
pub fn cut_line(text: &[u8]) -> Option<Cut<'_>>
    ensures { MatchOption result (lines_of text.now ≡ []) (λ cut. (lines_of text.now ≡ cut.front.now ∷ lines_of cut.rest.now)
        × (length cut.rest.now < length text.now)) }
{
    if text.is_empty() {
        return None;
    }
    let (line, rest) = text.split_at(line_len(text));
    match rest.split_first() {
        Some((_, rest)) => Some(Cut {
            front: without_return(line),
            rest,
        }),
        None => Some(Cut { front: line, rest }),
    }
}

/// The bytes without a carriage return at their end.
pub fn without_return(bytes: &[u8]) -> &[u8]
    ensures { result.now ≡ without_return bytes.now }
{
    match bytes.split_last() {
        Some((last, front)) if *last == b'\r' => front,
        _ => bytes,
    }
}

/// The line says nothing: it has no words, or begins with `#`.
pub fn is_skipped(line: &[u8]) -> bool
    ensures { result ≡ is_skipped line.now }
{
    match line {
        [b'#', ..] => true,
        _ => cut_word(line).is_none(),
    }
}
