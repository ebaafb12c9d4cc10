//! Notes behind those of a run.
ghost use Rattle.std.specs.Prelude.{◌++◌, List, IfOk, map, string_bytes};
ghost use Rattle.psy_draw.specs.Gathering.{Counts, asks_variable};
ghost use Rattle.psy_draw.specs.Listing.{Lists};
ghost use Rattle.psy_log.specs.declared.note.Note.{Note as Said};

use psy_base::Memory;
use psy_draw::Outset;
use psy_log::Note;
use std::alloc::Global;

/// What must be known before values are drawn of a run with this summary, of which that is known, and of more notes behind it.
pub fn known_with<'a>(
    alloc: Global,
    summary: &[Note<'a>],
    names: &[String],
    from: u32,
    outset: &Outset<'a>,
    more: &[Note],
) -> Result<Outset<'a>, Memory>
    requires { Lists (asks_variable (map string_bytes names.now)) summary.now outset.now.firsts.names }
    ensures names { IfOk result (λ known. Lists (asks_variable (map string_bytes names.now)) summary.now known.firsts.names) }
    ensures counts { IfOk result (λ known. (notes : List Said) → Counts (map string_bytes names.now) from notes outset.now
        → Counts (map string_bytes names.now) from (notes ++ more.now) known) }
{
    let mut known = Outset {
        last: outset.last,
        lanes: outset.lanes,
        firsts: outset.again(alloc, summary, names)?,
    };
    known.add_all(more, names, from);
    Ok(known)
}
