//! Laws of the definitions, each the contract of a function that does nothing.
ghost use Rattle.std.specs.Prelude.{ℕ};
ghost use Rattle.std.specs.List.{Contains};
ghost use Rattle.psy_audit.specs.Faults.{IsLegal};
ghost use Rattle.psy_audit.specs.Legal.{HaveAll, IsIn, IsInTime, IsSeen, IsServed};
ghost use Rattle.psy_audit.specs.Traces.{Judged, Lines, acts, looks, segments};
ghost use Rattle.psy_audit.specs.Worked.{AreFound, courses, dates, forms, sights, turns};
ghost use Rattle.psy_audit.specs.declared.said.Act.{Act as Action};
ghost use Rattle.psy_audit.specs.declared.said.Look.{Look as Seen};
ghost use Rattle.psy_audit.specs.declared.said.Segment.{Segment as Stretch};

/// What a legal trace tells: each action has its cycles in time; at each cycle of a stretch the processor runs the pending action that is due first;
/// and each look reads the value that was published for the start of its action, from a place not yet overwritten.
pub fn legal()
    ensures acts { (j : Judged) (lines : Lines) (a : Action) → IsLegal j lines → Contains (acts lines) a → IsInTime j lines a }
    ensures segments { (j : Judged) (lines : Lines) (s : Stretch) (cycle : ℕ) → HaveAll j → IsLegal j lines → Contains (segments lines) s
        → IsIn cycle s → IsServed j lines s cycle }
    ensures looks { (j : Judged) (lines : Lines) (l : Seen) → IsLegal j lines → Contains (looks lines) l → IsSeen j lines l }
{}

/// A trace that was worked out by hand, and what is wrong with it where a line is spoilt.
pub fn worked()
    ensures forms { AreFound forms }
    ensures courses { AreFound courses }
    ensures dates { AreFound dates }
    ensures turns { AreFound turns }
    ensures sights { AreFound sights }
{}
