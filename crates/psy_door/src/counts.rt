//! Which calls of a form in memory fail.
ghost use Rattle.std.specs.Prelude.{◌↔◌, IsTrue, Contains};

/// Whether a call's number is listed.
pub fn is_listed(numbers: &[u32], number: u64) -> bool
    ensures { IsTrue result ↔ Contains numbers.now number }
{
    numbers.iter().any(|n| u64::from(*n) == number)
}
