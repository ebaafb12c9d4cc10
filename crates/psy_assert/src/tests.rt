//! Assertions over a small run.
use crate::{Assertion, Claim, Relation, Span, Verdict, judge};
use psy_log::Note;

// v is 5 from 0 on and 7 from 10 on; s has a message at 12, and A is stopped at 15.
const NOTES: [Note; 4] = [
    Note::Value {
        date: 0,
        variable: b"v",
        value: 5,
    },
    Note::Value {
        date: 10,
        variable: b"v",
        value: 7,
    },
    Note::Message {
        date: 12,
        stream: b"s",
        value: 1,
    },
    Note::StopOverrun {
        date: 15,
        agent: b"A",
    },
];

// Whether a claim is kept for these dates.
fn is_kept(claim: Claim, span: Span) -> bool {
    matches!(judge(&Assertion { claim, span }, &NOTES), Verdict::Kept)
}

// Whether each value of v stands so to this one.
fn is_kept_by_v(relation: Relation, value: i32, span: Span) -> bool {
    let claim = Claim::Values {
        variable: b"v",
        relation,
        value,
    };
    is_kept(claim, span)
}

#[test]
fn values_stand_so(rt: HostRuntime) {
    assert!(rt; is_kept_by_v(Relation::AtMost, 7, Span::Always));
    assert!(rt; is_kept_by_v(Relation::AtLeast, 5, Span::Always));
    assert!(rt; is_kept_by_v(Relation::Equal, 5, Span::By { date: 9 }));
    assert!(rt; is_kept_by_v(Relation::Unequal, 5, Span::From { date: 10 }));
    assert!(rt; is_kept_by_v(Relation::Less, 6, Span::Between { from: 3, to: 9 }));
    assert!(rt; is_kept_by_v(Relation::Greater, 6, Span::At { date: 400 }));
}

#[test]
fn values_that_break_it(rt: HostRuntime) {
    assert!(rt; !is_kept_by_v(Relation::Less, 7, Span::Always));
    assert!(rt; !is_kept_by_v(Relation::Equal, 5, Span::By { date: 10 }));
    assert!(rt; !is_kept_by_v(Relation::Equal, 7, Span::From { date: 9 }));
}

#[test]
fn stops_and_messages(rt: HostRuntime) {
    assert!(rt; is_kept(Claim::NoStop, Span::By { date: 14 }));
    assert!(rt; !is_kept(Claim::NoStop, Span::By { date: 15 }));
    assert!(rt; is_kept(Claim::SomeMessage { stream: b"s" }, Span::At { date: 12 }));
    assert!(rt; !is_kept(Claim::SomeMessage { stream: b"s" }, Span::From { date: 13 }));
    assert!(rt; is_kept(Claim::NoMessage { stream: b"s" }, Span::By { date: 11 }));
    assert!(rt; !is_kept(Claim::NoMessage { stream: b"s" }, Span::From { date: 12 }));
}
