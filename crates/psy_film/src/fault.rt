//! Why no picture is drawn of a run in a file.
ghost use Rattle.std.specs.Prelude.{◌≡◌};

use psy_base::Memory;
use psy_passes::PassFault;
use std::alloc::AllocError;
use thiserror::Error;

/// Why no picture is drawn of a run in a file.
#[derive(Clone, Copy, Debug, PartialEq, Eq, Error)]
pub enum FilmFault {
    /// The run can't be read to its end, or is none.
    #[error("the run can't be read: {0}")]
    Run(PassFault),
    /// The run isn't of the program: the number of its first line that isn't, counted from 1, or one more than there are lines where its summary lacks some.
    #[error("line {line} isn't of the program")]
    Foreign { line: usize },
    /// The name of this place, counted from 0, among those that were asked for is in no line of the summary.
    #[error("the name {place} that was asked for isn't in the summary")]
    Unknown { place: usize },
    /// No date of the run lies in the window.
    #[error("no date of the run lies in the window")]
    Empty,
}

impl From<PassFault> for FilmFault {
    ghost use Rattle.psy_film.specs.declared.fault.FilmFault.TheVariants.{Run};

    ghost from_gives = { λ fault made. made ≡ Run fault };

    fn from(fault: PassFault) -> FilmFault {
        FilmFault::Run(fault)
    }
}

impl From<Memory> for FilmFault {
    ghost use Rattle.psy_film.specs.declared.fault.FilmFault.TheVariants.{Run};
    ghost use Rattle.psy_passes.specs.declared.fault.PassFault.TheVariants as pass;

    ghost from_gives = { λ _ made. made ≡ Run pass.Memory };

    fn from(_memory: Memory) -> FilmFault {
        FilmFault::Run(PassFault::Memory)
    }
}

impl From<AllocError> for FilmFault {
    ghost use Rattle.psy_film.specs.declared.fault.FilmFault.TheVariants.{Run};
    ghost use Rattle.psy_passes.specs.declared.fault.PassFault.TheVariants as pass;

    ghost from_gives = { λ _ made. made ≡ Run pass.Memory };

    fn from(_error: AllocError) -> FilmFault {
        FilmFault::Run(PassFault::Memory)
    }
}
