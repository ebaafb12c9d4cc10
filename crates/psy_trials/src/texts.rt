//! The unit and the code of a program's text.

ghost use Rattle.std.specs.Prelude.{IfOk};
ghost use Rattle.psy_meaning.specs.Units.{IsOfText};

use psy_base::limits::FILE_BYTES;
use psy_meaning::laws::of_text;
use psy_parse::parse;
use psy_rules::resolve;
use psy_token::lex;
use psy_tree::Unit;
use std::alloc::AllocGlobal;
use std::process::Abort;
use std::test::Fail;

/// The unit of a program.
pub fn unit_of(rt: &(impl Abort + AllocGlobal), text: &str) -> Result<Unit, Fail>
    ensures { IfOk result (λ unit. IsOfText unit) }
{
    let bytes = text.as_bytes();
    assert!(rt; bytes.len() <= FILE_BYTES, "the text is too long");
    let tokens = lex(rt.alloc(), bytes)?;
    let raw = parse(rt.alloc(), tokens.as_slice())?;
    let unit = resolve(rt.alloc(), &raw)?;
    of_text();
    Ok(unit)
}
