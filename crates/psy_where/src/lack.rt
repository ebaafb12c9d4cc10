//! A demand that can't be supplied.
ghost use Rattle.std.specs.Prelude.{◌≡◌};
ghost use Rattle.psy_log.specs.Forms.{says};
ghost use Rattle.psy_where.specs.Lacks.{lack_in};

use psy_log::Note;

/// A demand that can't be supplied: over so many ticks so many cycles may be asked for by the agents of a processor, and so many are there.
#[derive(Clone, Copy, Debug, PartialEq, Eq)]
pub struct Lack {
    pub length: u64,
    pub demand: u64,
    pub supply: u64,
    pub processor: u32,
}

/// The one that a note tells.
pub fn lack_of(note: Note<'_>) -> Option<Lack>
    ensures { result ≡ lack_in (says note.entry).0 (says note.entry).1 }
{
    match note {
        Note::Infeasible {
            length,
            demand,
            supply,
            processor,
        } => Some(Lack {
            length,
            demand,
            supply,
            processor: processor.unwrap_or(0),
        }),
        _ => None,
    }
}
