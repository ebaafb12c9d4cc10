//! What a word of a line says.
ghost use Rattle.std.specs.Prelude.{◌≡◌, ◌≢◌, IfSome, None};
ghost use Rattle.psy_arith.specs.declared.operators.Trap.{Trap};
ghost use Rattle.psy_log.specs.Table.{Said, trap_name, written};
ghost use Rattle.psy_notes.specs.Notes.{Fits};
ghost use Rattle.psy_notes.specs.Reading.{said_of};

use psy_arith::Trap;
use psy_log::Sort;
use psy_text::whole;

/// What a word of a line says.
#[derive(Clone, Copy, Debug)]
pub enum Content<'a> {
    /// A number of 32 bits.
    Short(u32),
    /// A number of 64 bits.
    Long(u64),
    /// A value.
    Value(i32),
    /// A name.
    Name(&'a [u8]),
    /// A number of 32 bits, or none.
    ShortOrNone(Option<u32>),
    /// A number of 64 bits, or none.
    LongOrNone(Option<u64>),
    /// A kind of trap.
    Kind(Trap),
}

impl Default for Content<'_> {
    fn default() -> Self {
        Content::Long(0)
    }
}

/// What a word says where something of this sort is said. None exactly where nothing of the sort is written so.
pub fn read_content(sort: Sort, word: &[u8]) -> Option<Content<'_>>
    ensures some { IfSome result (λ content. Fits sort (said_of content) × (word.now ≡ written (said_of content))) }
    ensures none { result ≡ None → (said : Said) → Fits sort said → word.now ≢ written said }
{
    match sort {
        Sort::Short => Some(Content::Short(whole::short(word)?)),
        Sort::Long => Some(Content::Long(whole::number(word)?)),
        Sort::Value => Some(Content::Value(whole::value(word)?)),
        Sort::Name => name(word),
        Sort::ShortOrDash => short_or_none(word),
        Sort::LongOrDash => long_or_none(word),
        Sort::Kind => Some(Content::Kind(trap(word)?)),
    }
}

// The word as a name.
fn name(word: &[u8]) -> Option<Content<'_>>
    ensures some { IfSome result (λ content. Fits Sort.Name (said_of content) × (word.now ≡ written (said_of content))) }
    ensures none { result ≡ None → (said : Said) → Fits Sort.Name said → word.now ≢ written said }
{
    if whole::is_name(word) {
        Some(Content::Name(word))
    } else {
        None
    }
}

// The word as a number of 32 bits, or as `-`.
fn short_or_none(word: &[u8]) -> Option<Content<'_>>
    ensures some { IfSome result (λ content. Fits Sort.ShortOrDash (said_of content) × (word.now ≡ written (said_of content))) }
    ensures none { result ≡ None → (said : Said) → Fits Sort.ShortOrDash said → word.now ≢ written said }
{
    match word {
        b"-" => Some(Content::ShortOrNone(None)),
        _ => Some(Content::ShortOrNone(Some(whole::short(word)?))),
    }
}

// The same for 64 bits.
fn long_or_none(word: &[u8]) -> Option<Content<'_>>
    ensures some { IfSome result (λ content. Fits Sort.LongOrDash (said_of content) × (word.now ≡ written (said_of content))) }
    ensures none { result ≡ None → (said : Said) → Fits Sort.LongOrDash said → word.now ≢ written said }
{
    match word {
        b"-" => Some(Content::LongOrNone(None)),
        _ => Some(Content::LongOrNone(Some(whole::number(word)?))),
    }
}

// The kind of trap whose name the word is.
fn trap(word: &[u8]) -> Option<Trap>
    ensures some { IfSome result (λ kind. word.now ≡ trap_name kind) }
    ensures none { result ≡ None → (kind : Trap) → word.now ≢ trap_name kind }
{
    match word {
        b"divide" => Some(Trap::Divide),
        b"index" => Some(Trap::Index),
        b"loop" => Some(Trap::Loop),
        b"take" => Some(Trap::Take),
        _ => None,
    }
}
