//! How much an agent's machine holds at most, and how such depths add up.
ghost use Rattle.std.specs.Prelude.{◌≡◌};
ghost use Rattle.psy_meaning.specs.Depths as depths;
ghost use Rattle.psy_flow.specs.Counted.{held, capped_depth};

/// How much an agent's machine holds at most.
#[derive(Clone, Copy, Debug, PartialEq, Eq)]
pub struct Depths {
    pub operands: u64,
    /// Cells and counters of open calls.
    pub cells: u64,
}

/// Nothing is held.
pub const SHALLOW: Depths = Depths {
    operands: 0,
    cells: 0,
};

/// One operand.
pub const ONE_DEEP: Depths = Depths {
    operands: 1,
    cells: 0,
};

impl Depths {
    /// The greater of both, in each respect.
    pub(super) fn or(self, other: Depths) -> Depths
        ensures { held result ≡ depths.deeper (held self) (held other) }
    {
        Depths {
            operands: self.operands.max(other.operands),
            cells: self.cells.max(other.cells),
        }
    }

    /// The same on top of so many operands, as far as they can be counted.
    pub(super) fn on_top_of(self, operands: u64) -> Depths
        ensures { held result ≡ capped_depth (depths.on_top_of operands (held self)) }
    {
        Depths {
            operands: operands.saturating_add(self.operands),
            cells: self.cells,
        }
    }
}
