//! What is wrong with a trace, as psyc numbers it.
ghost use Rattle.std.specs.Prelude.{◌≡◌};
ghost use Rattle.psy_where.specs.Untrue.{untrue_of, untrue_sentence};

/// What is wrong with a line of a trace.
#[derive(Clone, Copy, Debug, PartialEq, Eq)]
pub enum Untrue {
    /// A line has no form of a trace.
    Form,
    /// A name is no agent's or no variable's.
    Name,
    /// A line is out of order.
    Order,
    /// An agent's actions don't follow each other.
    Course,
    /// An action wasn't served so.
    Work,
    /// A publication isn't the next one.
    Date,
    /// A processor goes to another action.
    Turn,
    /// A look didn't read so.
    Look,
}

/// The fault of a number, from 1 to 8.
pub fn untrue_of(number: u32) -> Option<Untrue>
    ensures { result ≡ untrue_of number }
{
    match number {
        1 => Some(Untrue::Form),
        2 => Some(Untrue::Name),
        3 => Some(Untrue::Order),
        4 => Some(Untrue::Course),
        5 => Some(Untrue::Work),
        6 => Some(Untrue::Date),
        7 => Some(Untrue::Turn),
        8 => Some(Untrue::Look),
        _ => None,
    }
}

/// What it means.
pub fn untrue_sentence(untrue: Untrue) -> &'static [u8]
    ensures { result.now ≡ untrue_sentence untrue }
{
    match untrue {
        Untrue::Form =>
            b"this line isn't one of a trace, ends it at another date, or stands behind its end; or the end is missing, and this would be its line",
        Untrue::Name => b"the program has no agent or no variable of this name",
        Untrue::Order =>
            b"this line isn't behind the one before: acts, pubs, segs and looks, each by agent, variable or processor, then number, date or cycle",
        Untrue::Course =>
            b"the agent doesn't go on so: each action starts where the one before ended, at a point that may follow, and is due at that point's deadline",
        Untrue::Work =>
            b"its cycles aren't those of its segments, or pass the budget, or lie before its start or behind its deadline; or it is due and not finished",
        Untrue::Date =>
            b"this isn't the variable's next date, or the place isn't that of the date; or at the end a date is missing",
        Untrue::Turn =>
            b"here the processor doesn't go to the pending action of the earliest deadline, or leaves one waiting in the gap before",
        Untrue::Look =>
            b"this look isn't in a cycle of its action, reaches back beyond the depth, or has another place or value than that of the date that it asks for",
    }
}
