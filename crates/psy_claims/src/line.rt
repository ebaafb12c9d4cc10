//! What one line asserts.
ghost use Rattle.std.specs.Prelude.{◌≡◌, ℕ, List, Err, IfOk};
ghost use Rattle.psy_log.specs.declared.note.Note.{Note};
ghost use Rattle.psy_passes.specs.Listing.{streams_in, variables_in};
ghost use Rattle.psy_claims.specs.Claims.{IsWrong, Says, is_named};
ghost use Rattle.psy_claims.specs.declared.fault.ClaimFault.TheVariants.{Line};
ghost use Rattle.psy_claims.specs.declared.fault.Slip.{Slip as Wrong};

use crate::claimed::Claimed;
use crate::fault::{ClaimFault, Slip};
use crate::words::read_words;
use psy_assert::Claim;
use psy_passes::Listed;
use psy_text::line::is_skipped;
use psy_text::word::words_of;
use std::alloc::Global;

/// What the line of this number says, or what is wrong with it.
pub fn read_line<'a>(
    alloc: Global,
    listed: &Listed,
    number: usize,
    line: &'a [u8],
) -> Result<Option<Claimed<'a>>, ClaimFault>
    ensures says { (notes : List Note) → listed.now.variables ≡ variables_in notes → listed.now.streams ≡ streams_in notes
        → IfOk result (λ said. Says notes number line.now said) }
    ensures wrong { (notes : List Note) → listed.now.variables ≡ variables_in notes → listed.now.streams ≡ streams_in notes
        → (at : ℕ) (slip : Wrong) → result ≡ Err (Line at slip) → (at ≡ number) × IsWrong notes line.now slip }
{
    if is_skipped(line) {
        return Ok(None);
    }
    let words = words_of(alloc, line)?;
    let Some(assertion) = read_words(words.as_slice()) else {
        return Err(ClaimFault::Line {
            line: number,
            slip: Slip::Form,
        });
    };
    if assertion.span.last() < assertion.span.first() {
        return Err(ClaimFault::Line {
            line: number,
            slip: Slip::Dates,
        });
    }
    if has_name(listed, &assertion.claim) {
        return Ok(Some(Claimed {
            number,
            line,
            assertion,
        }));
    }
    Err(ClaimFault::Line {
        line: number,
        slip: Slip::Name,
    })
}

// Whether the name of a claim, where it has one, is listed.
fn has_name(listed: &Listed, claim: &Claim) -> bool
    ensures { (notes : List Note) → listed.now.variables ≡ variables_in notes → listed.now.streams ≡ streams_in notes
        → result ≡ is_named notes claim.now }
{
    match *claim {
        Claim::Values { variable, .. } => listed.variables.place(variable).is_some(),
        Claim::NoStop => true,
        Claim::NoMessage { stream } | Claim::SomeMessage { stream } => {
            listed.streams.place(stream).is_some()
        }
    }
}
