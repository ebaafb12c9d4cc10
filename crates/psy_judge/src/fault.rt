//! Faults of code, and the lesser of two.

ghost use Rattle.std.specs.Prelude.{◌≡◌};
ghost use Rattle.psy_judge.specs.Judged.{is_before, lesser};

/// A rule that a place breaks.
#[derive(Clone, Copy, Debug, PartialEq, Eq)]
pub struct Fault {
    /// That of the rule, from 1 to 7.
    pub number: u32,
    /// In the code, or where a point or a function begins.
    pub place: u32,
}

fn is_before(this: Fault, that: Fault) -> bool
    ensures { result ≡ is_before this that }
{
    this.place < that.place || (this.place == that.place && this.number < that.number)
}

/// The lesser of two faults by place, then number, where there is any.
pub fn lesser(this: Option<Fault>, that: Option<Fault>) -> Option<Fault>
    ensures { result ≡ lesser this that }
{
    match (this, that) {
        (None, _) => that,
        (Some(_), None) => this,
        (Some(one), Some(other)) => {
            if is_before(other, one) {
                Some(other)
            } else {
                Some(one)
            }
        }
    }
}
