//! What is shown of a line takes at most 100 columns, and is the line where that fits.
ghost use Rattle.std.specs.Prelude.{◌≡◌, ◌+◌, ◌++◌, ◌≤◌, ℕ, List};
ghost use Rattle.psy_show.specs.Columns.{columns};
ghost use Rattle.psy_show.specs.Cutting.{back_behind, front_of};

/// A line of at most 100 columns is shown whole.
pub fn whole()
    ensures { (before behind : List ℕ) → columns before + columns behind ≤ 100 → (front_of before behind ≡ before) × (back_behind before behind ≡ behind) }
{}

/// A line as it is shown takes at most 100 columns.
pub fn at_most()
    ensures { (before behind : List ℕ) → columns (front_of before behind ++ back_behind before behind) ≤ 100 }
{
    whole();
}
