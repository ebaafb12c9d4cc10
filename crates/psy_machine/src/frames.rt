//! The frames of an agent and of its open calls: cells and counters.
ghost use Rattle.std.specs.Prelude.{◌≡◌, ◌+◌, ◌<◌, ◌≤◌, [], ◌∷◌, ◌++◌, length, replicate, slice_get, slice_set, vec_capacity, Some, IfOk};
ghost use Rattle.psy_base.specs.declared.limits.TheConstants.{OPEN_CALLS};
ghost use Rattle.psy_code.specs.Execution.{OpenCall, cells_in_calls, cleared};
ghost use Rattle.psy_machine.specs.Parts.{present_in, with_present};

use psy_base::limits::OPEN_CALLS;
use std::alloc::{AllocError, Global};
use std::marker::Model;

/// Where the cells and the counters of a frame begin among those of all frames.
#[derive(Clone, Copy, Debug)]
struct Place {
    cells: usize,
    counters: usize,
}

/// An open call: where the frame of its caller begins, and where its caller goes on.
#[derive(Clone, Copy, Debug)]
struct Header {
    caller: Place,
    back: usize,
}

/// The frame of an agent and those of its open calls, one behind the other, in room that was reserved.
#[derive(Debug, Drop)]
pub struct Frames {
    cells: Vec<i64>,
    counters: Vec<u32>,
    headers: Vec<Header>,
    /// Where the innermost frame begins.
    present: Place,
    /// Where the agent's own frame ends.
    home_end: Place,
    /// How many cells and counters of open calls there is room for. Contracts name it; no call reads it.
    room: u32,
}

impl Model for Frames {
    ghost use Rattle.psy_machine.specs.Parts.{FrameStack};

    ghost Value = { FrameStack };

    ghost use Rattle.psy_machine.specs.Layout.{frames_in, IsLaidOut};

    ghost view = { frames_in };

    ghost invariant = { IsLaidOut };
}

impl Frames {
    /// The frame of an agent, with room for open calls with so many cells and counters together.
    pub fn new(alloc: Global, cells: &[i32], counters: u32, room: u32) -> Result<Frames, AllocError>
        ensures home { IfOk result (λ f.
            f.home ≡ record { cells = cells.now; counters = replicate counters 0 }) }
        ensures calls { IfOk result (λ f. f.calls ≡ []) }
        ensures room { IfOk result (λ f. room ≤ f.room) }
    {
        let mut all_cells = Vec::with_capacity(alloc, cells.len() + room as usize)?;
        put_all(&mut all_cells, cells);
        Frames::around(alloc, all_cells, counters, room)
    }

    /// The frame of an agent that has these values, with room for open calls as above.
    pub fn with_cells(
        alloc: Global,
        cells: &[i64],
        counters: u32,
        room: u32,
    ) -> Result<Frames, AllocError>
        ensures home { IfOk result (λ f.
            f.home ≡ record { cells = cells.now; counters = replicate counters 0 }) }
        ensures calls { IfOk result (λ f. f.calls ≡ []) }
        ensures room { IfOk result (λ f. room ≤ f.room) }
    {
        let mut all_cells = Vec::with_capacity(alloc, cells.len() + room as usize)?;
        all_cells.extend_from_slice(cells)?;
        Frames::around(alloc, all_cells, counters, room)
    }

    /// The frame of an agent around its cells, behind which there is room for those of open calls.
    fn around(
        alloc: Global,
        cells: Vec<i64>,
        counters: u32,
        room: u32,
    ) -> Result<Frames, AllocError>
        requires { length cells.items + room ≤ vec_capacity cells }
        ensures home { IfOk result (λ f.
            f.home ≡ record { cells = cells.items; counters = replicate counters 0 }) }
        ensures calls { IfOk result (λ f. f.calls ≡ []) }
        ensures room { IfOk result (λ f. room ≤ f.room) }
    {
        let home_end = Place {
            cells: cells.len(),
            counters: counters as usize,
        };
        let mut all_counters = Vec::with_capacity(alloc, home_end.counters + room as usize)?;
        all_counters.resize(home_end.counters, 0)?;
        Ok(Frames {
            cells,
            counters: all_counters,
            headers: Vec::with_capacity(alloc, OPEN_CALLS as usize)?,
            present: Place {
                cells: 0,
                counters: 0,
            },
            home_end,
            room,
        })
    }

    /// A cell of the agent's own frame.
    pub fn home_cell(&self, number: usize) -> i64
        requires { number < length self.now.home.cells }
        ensures { slice_get self.now.home.cells number ≡ Some result }
    {
        self.cells[number]
    }

    /// The cells of the agent's own frame.
    pub fn home_cells(&self) -> &[i64]
        ensures { result.now ≡ self.now.home.cells }
    {
        &self.cells[..self.home_end.cells]
    }

    /// A cell of the innermost frame.
    #[inline(always)]
    pub fn cell(&self, number: usize) -> i64
        requires { number < length (present_in self.now).cells }
        ensures { slice_get (present_in self.now).cells number ≡ Some result }
    {
        self.cells[self.present.cells + number]
    }

    #[inline(always)]
    pub fn set_cell(&mut self, number: usize, value: i64)
        requires { number < length (present_in self.old).cells }
        ensures { let frame = present_in self.old in
            self.new ≡ with_present (record frame { cells = slice_set frame.cells number value }) self.old }
    {
        let place = self.present.cells + number;
        self.cells[place] = value;
    }

    /// The counter of a loop of the innermost frame.
    #[inline(always)]
    pub fn counter(&self, number: usize) -> u32
        requires { number < length (present_in self.now).counters }
        ensures { slice_get (present_in self.now).counters number ≡ Some result }
    {
        self.counters[self.present.counters + number]
    }

    #[inline(always)]
    pub fn set_counter(&mut self, number: usize, turns: u32)
        requires { number < length (present_in self.old).counters }
        ensures { let frame = present_in self.old in
            self.new ≡ with_present (record frame { counters = slice_set frame.counters number turns }) self.old }
    {
        let place = self.present.counters + number;
        self.counters[place] = turns;
    }

    /// Opens a call, with its arguments and locals as its cells.
    pub fn open(&mut self, arguments: &[i64], locals: &[i32], counters: u32, back: usize)
        requires room { length arguments.now + length locals.now + counters + cells_in_calls self.old.calls ≤ self.old.room }
        requires calls { length self.old.calls < OPEN_CALLS }
        ensures { self.new ≡ record self.old {
          calls = record {
            frame = record { cells = arguments.now ++ locals.now; counters = replicate counters 0 };
            back = back;
          } ∷ self.old.calls;
        } }
    {
        self.headers.push_reserved(Header {
            caller: self.present,
            back,
        });
        self.present = Place {
            cells: self.cells.len(),
            counters: self.counters.len(),
        };
        self.cells.extend_from_slice(arguments).unwrap();
        put_all(&mut self.cells, locals);
        let end = self.counters.len() + counters as usize;
        self.counters.resize(end, 0).unwrap();
    }

    /// Closes the innermost call, and answers where its caller goes on.
    pub fn close(&mut self) -> usize
        requires { 0 < length self.old.calls }
        ensures { (call : OpenCall) × (self.old.calls ≡ call ∷ self.new.calls) × (call.back ≡ result)
            × (self.new.home ≡ self.old.home) × (self.new.room ≡ self.old.room) }
    {
        let header = self.headers.take_last();
        self.cells.truncate(self.present.cells);
        self.counters.truncate(self.present.counters);
        self.present = header.caller;
        header.back
    }

    /// Leaves the agent's own frame alone, with its counters at 0.
    pub fn restart(&mut self)
        ensures { self.new ≡ record self.old { home = cleared self.old.home; calls = [] } }
    {
        self.headers.clear();
        self.cells.truncate(self.home_end.cells);
        self.counters.clear();
        self.counters.resize(self.home_end.counters, 0).unwrap();
        self.present = Place {
            cells: 0,
            counters: 0,
        };
    }
}

/// Puts first values behind cells, in room that was reserved.
fn put_all(cells: &mut Vec<i64>, values: &[i32])
    requires { length cells.old.items + length values.now ≤ vec_capacity cells.old }
    ensures items { cells.new.items ≡ cells.old.items ++ values.now }
    ensures capacity { vec_capacity cells.new ≡ vec_capacity cells.old }
{
    for value in values {
        cells.push_reserved(i64::from(*value));
    }
}
