//! The least of the faults that were noted.
ghost use Rattle.std.specs.Prelude.{◌≡◌};
ghost use Rattle.psy_rules.specs.Judged.{is_before, noted};

use psy_tree::RuleKind;

/// A fault: the rule that is broken, and the token that it names.
#[derive(Clone, Copy, Debug, PartialEq, Eq)]
pub struct RuleAt {
    pub kind: RuleKind,
    pub token: u32,
}

/// The least of the faults that were noted, by token and then by number.
#[derive(Clone, Copy, Debug, PartialEq, Eq)]
pub struct Least {
    pub fault: Option<RuleAt>,
}

impl Least {
    /// Notes a fault where there is one.
    #[tactic(auto, unfolding(crate::specs::Judged::noted))]
    pub fn note(&mut self, holds: bool, kind: RuleKind, token: u32)
        ensures { self.new.fault ≡ noted holds kind token self.old.fault }
    {
        if holds && self.is_after(kind, token) {
            self.fault = Some(RuleAt { kind, token });
        }
    }

    /// No fault was noted, or one that comes after this.
    fn is_after(&self, kind: RuleKind, token: u32) -> bool
        ensures { result ≡ is_before kind token self.now.fault }
    {
        match self.fault {
            None => true,
            Some(least) => {
                token < least.token || (token == least.token && kind.number() < least.kind.number())
            }
        }
    }
}
