//! A table whose rows are found by their byte.
ghost use Rattle.std.specs.Prelude.{◌≡◌, ◌≤◌, true, false, MatchOption};
ghost use Rattle.psy_arith.specs.Tables.{bytes_rise, row_of};

/// What a byte of code stands for: how many operands it pops and pushes.
#[derive(Clone, Copy, Debug, PartialEq, Eq)]
pub struct Row {
    pub byte: u8,
    pub pops: u8,
    pub pushes: u8,
}

/// Rows that rise strictly by their bytes.
#[derive(Clone, Copy, Debug, PartialEq, Eq)]
pub struct Table<const N: usize> {
    rows: [Row; N],
}

impl<const N: usize> Table<N> {
    /// The table of these rows; `None` exactly where their bytes don't rise strictly.
    pub fn new(rows: [Row; N]) -> Option<Table<N>>
        requires few { N ≤ 256 }
        ensures table { MatchOption result (bytes_rise rows.entry ≡ false) (λ t. (t.rows ≡ rows.entry) × (bytes_rise rows.entry ≡ true)) }
    {
        if !rises(&rows) {
            return None;
        }
        Some(Table { rows })
    }

    /// The row with this byte; `None` exactly where no row has it.
    pub fn find(&self, byte: u8) -> Option<Row>
        requires few { N ≤ 256 }
        ensures { result ≡ row_of byte self.now.rows }
    {
        self.rows.iter().copied().find(|row| row.byte == byte)
    }
}

/// Each row's byte is above that of the row before.
#[tactic(auto, using(crate::proofs::Rising::few_rise))]
fn rises(rows: &[Row]) -> bool
    ensures { result ≡ bytes_rise rows.now }
{
    let mut rest = rows;
    while let [before, after, ..] = rest {
        if before.byte >= after.byte {
            return false;
        }
        rest = &rest[1..];
    }
    true
}
