//! What may be wrong with a program that is a tree.

ghost use Rattle.std.specs.Prelude.{◌≡◌};
ghost use Rattle.psy_tree.specs.Rules.{rule_number};

/// The kinds of fault that names and rules can have, in the order of their numbers.
#[derive(Clone, Copy, Debug, PartialEq, Eq)]
pub enum RuleKind {
    /// 1: two declarations of one name clash.
    Twice,
    /// 2: a name isn't declared in reach, or a clock's parent stands below it.
    Unknown,
    /// 3: a name is of another kind than its place asks for, or a word stands where it may not.
    WrongKind,
    /// 4: an agent names another agent's temporal variable outside `past`.
    NotOwner,
    /// 5: `ready` or `take` by an agent that isn't the receiver.
    NotReceiver,
    /// 6: `past` looks back further than the depth allows.
    TooDeep,
    /// 7: a loop without `max` holds no `advance`.
    NoMax,
    /// 8: a loop with `max` holds an `advance`, or one without has a turn with none.
    MixedLoop,
    /// 9: an agent's body may end without an `advance`.
    NoAdvance,
    /// 10: a function calls one that doesn't stand above it.
    CallsDown,
    /// 11: a clock's shift or period isn't lawful.
    BadClock,
    /// 12: a number is out of its range.
    BadNumber,
}

impl RuleKind {
    /// The number of the kind, from 1 to 12. Of two faults at one token the one with the lesser number comes
    /// first, and a refusal names the kind by it.
    pub fn number(self) -> u32
        ensures { result ≡ rule_number self }
    {
        match self {
            RuleKind::Twice => 1,
            RuleKind::Unknown => 2,
            RuleKind::WrongKind => 3,
            RuleKind::NotOwner => 4,
            RuleKind::NotReceiver => 5,
            RuleKind::TooDeep => 6,
            RuleKind::NoMax => 7,
            RuleKind::MixedLoop => 8,
            RuleKind::NoAdvance => 9,
            RuleKind::CallsDown => 10,
            RuleKind::BadClock => 11,
            RuleKind::BadNumber => 12,
        }
    }
}

/// What is counted of a program's declarations, in the order in which the limits are judged.
#[derive(Clone, Copy, Debug, PartialEq, Eq)]
pub enum Count {
    Clocks,
    Agents,
    /// Temporal variables and inputs together.
    Variables,
    Streams,
    Functions,
    /// Parameters, variables and arrays of one agent or function.
    Names,
    /// Points of one agent, the head of its body included.
    Points,
}
