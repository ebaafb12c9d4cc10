//! What is looked for on ways through code.

ghost use Rattle.std.specs.Prelude.{◌≡◌, ◌<◌, ◌+◌, ◌^◌, length, count_by};
ghost use Rattle.std.specs.List.{All};
ghost use Rattle.psy_flow.specs.Quests.{counts, counted, ends, is_counted_at};

use crate::parts::{Part, part_of};
use psy_code::Instr;

/// What is looked for: ways that end at a point, and the sends to a stream on them, which are counted.
#[derive(Clone, Copy, Debug)]
pub struct Quest {
    /// The point.
    pub to: u32,
    /// The stream.
    pub stream: u32,
}

impl Quest {
    /// Whether such a part of a way is an end that is looked for.
    pub fn ends(self, part: Part) -> bool
        ensures { result ≡ ends part self }
    {
        match part {
            Part::End(point) => point == self.to,
            _ => false,
        }
    }

    /// Whether such a part of a way is counted.
    fn counts(self, part: Part) -> bool
        ensures { result ≡ counts part self }
    {
        match part {
            Part::Sent { stream, .. } => stream == self.stream,
            _ => false,
        }
    }

    /// 1 where such a part of a way is counted, and else 0.
    pub fn counted(self, part: Part) -> u64
        ensures { result ≡ counted part self }
    {
        u64::from(self.counts(part))
    }

    // Whether the instruction at a place is counted.
    fn counts_at(self, instrs: &[Instr], place: usize) -> bool
        requires { place < length instrs.now }
        ensures { result ≡ is_counted_at instrs.now self place }
    {
        self.counts(part_of(&instrs[place]))
    }

    /// How many of the instructions at some places are counted.
    pub fn count(self, instrs: &[Instr], places: &[usize]) -> u64
        requires { All (λ place. place < length instrs.now) places.now }
        ensures count { result ≡ count_by (is_counted_at instrs.now self) places.now }
        ensures few { result + 2 < 2 ^ 64 }
    {
        let mut count = 0;
        'places: for place in places {
            count += u64::from(self.counts_at(instrs, *place));
        }
        count
    }
}
