//! Whose code is judged.

ghost use Rattle.std.specs.Prelude.{◌≡◌, ◌≤◌, ◌<◌, ℕ, length};
ghost use Rattle.psy_flow.specs.Needs.{cells_of, counters_of};
ghost use Rattle.psy_judge.specs.Deciding.{owner_of};
ghost use Rattle.psy_judge.specs.Judging.{IsSized, IsThere};

use psy_code::Code;

/// An agent or a function, by number.
#[derive(Clone, Copy, Debug)]
pub enum Whose {
    Agent(usize),
    Function(usize),
}

/// How many cells the owner's frame has.
pub fn cells_of(code: &Code, whose: Whose) -> u64
    requires sized { IsSized code.now }
    requires there { IsThere code.now (owner_of whose) }
    ensures { result ≡ cells_of code.now (owner_of whose) }
{
    match whose {
        Whose::Agent(number) => code.agents.as_slice()[number].cells.len() as u64,
        Whose::Function(number) => {
            let function = &code.functions.as_slice()[number];
            function.params as u64 + function.locals.len() as u64
        }
    }
}

/// How many counters it has.
pub fn counters_of(code: &Code, whose: Whose) -> u32
    requires there { IsThere code.now (owner_of whose) }
    ensures { result ≡ counters_of code.now (owner_of whose) }
{
    match whose {
        Whose::Agent(number) => code.agents.as_slice()[number].counters,
        Whose::Function(number) => code.functions.as_slice()[number].counters,
    }
}
