//! A generator of numbers, each from the one before it.
ghost use Rattle.std.specs.Prelude.{◌≡◌, ◌<◌, ◌/◌, ◌%◌, ◌^◌};
ghost use Rattle.psy_make.specs.Generator.{next};

/// A generator of numbers of 32 bits, each from the one before it. It gives the upper half of each.
#[derive(Debug, Drop)]
pub struct Generator {
    /// The last number; the one that was given, before the first.
    pub x: u32,
}

impl Generator {
    /// Goes on to the next number, and gives what its upper half leaves when it is divided by `n`.
    pub fn draw(&mut self, n: u32) -> u32
        requires { 0 < n }
        ensures number { self.new.x ≡ next self.old.x }
        ensures drawn { result ≡ next self.old.x / 2 ^ 16 % n }
    {
        self.x = self.x.wrapping_mul(1_664_525).wrapping_add(1_013_904_223);
        (self.x >> 16) % n
    }
}
