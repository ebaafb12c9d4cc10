//! From dates to pixels.

ghost use Rattle.std.specs.Prelude.{◌≡◌, ◌<◌, ◌≤◌, ℕ, IfSome, min, max};
ghost use Rattle.psy_base.specs.declared.limits.TheConstants.{UNTIL};
ghost use Rattle.psy_draw.specs.Places.{grain_of};

use crate::window::Window;
use psy_base::limits;

/// The width of the plot, in pixels.
pub const PLOT_WIDTH: u32 = 960;

/// The columns that all lanes have together, at most.
pub const COLUMNS: u32 = 40_000;

/// How dates become pixels: the first date stands at the plot's left end, the last one at its right end, and places are
/// multiples of the grain.
#[derive(Clone, Copy, Debug)]
pub struct Scale {
    pub from: u32,
    pub to: u32,
    pub grain: u32,
    ghost ordered: { from ≤ to },
    ghost dated: { to ≤ UNTIL },
    ghost grained: { 0 < grain },
}

impl Scale {
    ghost use Rattle.psy_draw.specs.Places.{grain_of, x_of, window_end};

    /// The scale of a window of a run up to a date, with so many lanes; none exactly where no date of the run lies in it.
    pub fn new(window: Window, last: u64, lanes: usize) -> Option<Scale>
        ensures from { IfSome result (λ scale. scale.from ≡ min window.from UNTIL) }
        ensures to { IfSome result (λ scale. scale.to ≡ min (window_end window last) UNTIL) }
        ensures grain { IfSome result (λ scale. scale.grain ≡ grain_of lanes) }
        ensures some { IfSome result (λ scale. window.from ≤ window_end window last) }
        ensures none { result ≡ None → window_end window last < window.from }
    {
        let to = window.to.min(last);
        if to < window.from {
            return None;
        }
        Some(Scale {
            from: first_date(window),
            to: bounded_date(to),
            grain: grain_of(lanes),
        })
    }

    /// The place of a date.
    pub fn x(&self, date: u64) -> u32
        ensures place { result ≡ x_of self.now.from self.now.to self.now.grain date }
        ensures within { result ≤ PLOT_WIDTH }
        // A later date doesn't stand before it.
        ensures rises { (later : ℕ) → date ≤ later → result ≤ x_of self.now.from self.now.to self.now.grain later }
    {
        self.place(date)
    }

    fn place(&self, date: u64) -> u32
        ensures place { result ≡ x_of self.now.from self.now.to self.now.grain date }
        ensures within { result ≤ PLOT_WIDTH }
    {
        let date = date.min(u64::from(self.to)) as u32;
        let x = (date.max(self.from) - self.from) * PLOT_WIDTH / (self.to - self.from).max(1);
        x / self.grain * self.grain
    }
}

/// The first date of a window, or the last date of any run where it is past that.
pub fn first_date(window: Window) -> u32
    ensures { result ≡ min window.from UNTIL }
{
    bounded_date(window.from)
}

// The width of a column where there are so many lanes.
fn grain_of(lanes: usize) -> u32
    ensures some { 0 < result }
    ensures grain { result ≡ grain_of lanes }
{
    let lanes = lanes.clamp(1, COLUMNS as usize) as u32;
    let columns = (COLUMNS / lanes).min(PLOT_WIDTH);
    PLOT_WIDTH.div_ceil(columns)
}

// A date, or the last date of any run where it is past that.
fn bounded_date(date: u64) -> u32
    ensures { result ≡ min date UNTIL }
{
    date.min(u64::from(limits::UNTIL)) as u32
}
