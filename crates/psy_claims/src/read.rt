//! The assertions of a text.
ghost use Rattle.std.specs.Prelude.{◌≡◌, ◌++◌, ℕ, List, Err, IfOk, OnOk, option_to_list};
ghost use Rattle.psy_text.specs.Lines.{lines_of};
ghost use Rattle.psy_log.specs.declared.note.Note.{Note};
ghost use Rattle.psy_passes.specs.Listing.{streams_in, variables_in};
ghost use Rattle.psy_claims.specs.Claims.{Say, WrongAt};
ghost use Rattle.psy_claims.specs.declared.fault.ClaimFault.TheVariants.{Line};
ghost use Rattle.psy_claims.specs.declared.fault.Slip.{Slip as Wrong};

use crate::claimed::Claimed;
use crate::fault::ClaimFault;
use crate::line::read_line;
use psy_passes::Listed;
use psy_text::line::cut_line;
use std::alloc::{AllocError, Global};

/// The assertions that the lines of a text say, of a run whose summary lists these names; or the first line that is wrong.
pub fn read_claims<'a>(
    alloc: Global,
    listed: &Listed,
    text: &'a [u8],
) -> Result<Vec<Claimed<'a>>, ClaimFault>
    ensures say { (notes : List Note) → listed.now.variables ≡ variables_in notes → listed.now.streams ≡ streams_in notes
        → IfOk result (λ claims. Say notes 1 (lines_of text.now) claims.items) }
    ensures wrong { (notes : List Note) → listed.now.variables ≡ variables_in notes → listed.now.streams ≡ streams_in notes
        → (line : ℕ) (slip : Wrong) → result ≡ Err (Line line slip) → WrongAt notes 1 (lines_of text.now) line slip }
{
    let mut claims = Vec::new(alloc);
    let mut rest = text;
    let mut number = 0;
    'each: while let Some(cut) = cut_line(rest) {
        number += 1;
        let said = match read_line(alloc, listed, number, cut.front) {
            Ok(said) => said,
            Err(fault) => return Err(fault),
        };
        add(&mut claims, said)?;
        rest = cut.rest;
    }
    Ok(claims)
}

// Adds what a line said.
fn add<'a>(claims: &mut Vec<Claimed<'a>>, said: Option<Claimed<'a>>) -> Result<(), AllocError>
    ensures { OnOk result (claims.new.items ≡ claims.old.items ++ option_to_list said.entry) }
{
    if let Some(claimed) = said {
        claims.push(claimed)?;
    }
    Ok(())
}
