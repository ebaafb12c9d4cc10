//! Whether a run is of its program.
ghost use Rattle.std.specs.Prelude.{◌≡◌, ◌<◌, ◌-◌, ◌^◌, ◌++◌, [], ◌∷◌, List, Option, length};
ghost use Rattle.psy_film.specs.Sources.{IsOwn, foreign_by};
ghost use Rattle.psy_film.specs.declared.source.Source.{Source as By};
ghost use Rattle.psy_log.specs.declared.note.Note.{Note as Said};

use crate::source::Source;
use psy_log::Note;
use psy_match::Belonging;

/// Whether a run is of its program, where one is given. It takes in notes one by one.
#[derive(Clone, Copy, Drop)]
pub struct Own<'s> {
    pub belonging: Option<Belonging<'s>>,
}

impl<'s> Own<'s> {
    /// Before any note.
    pub fn of(source: Option<Source<'s>>) -> Own<'s>
        ensures { IsOwn source.entry [] result }
    {
        match source {
            Some(source) => Own {
                belonging: Some(Belonging::of(source.unit)),
            },
            None => Own { belonging: None },
        }
    }

    /// Takes in a note.
    pub fn add(&mut self, note: &Note)
        ensures { (source : Option By) (notes : List Said) → IsOwn source notes self.old → IsOwn source (notes ++ note.now ∷ []) self.new }
    {
        if let Some(mut belonging) = self.belonging {
            belonging.add(note);
            self.belonging = Some(belonging);
        }
    }

    /// The number of the first note that isn't of the program, counted from 1.
    pub fn first_foreign(&self) -> Option<usize>
        ensures { (source : Option By) (notes : List Said) → IsOwn source notes self.now → length notes < 2 ^ 64 - 1 → result ≡ foreign_by source notes }
    {
        match self.belonging {
            Some(belonging) => belonging.first_foreign(),
            None => None,
        }
    }
}
