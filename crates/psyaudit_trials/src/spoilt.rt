//! The trace that was worked out by hand, where lines of it are spoilt.
use crate::lines::{Change, LEGAL, judged_with, wrong};

#[test]
fn the_trace_is_legal(rt: HostRuntime) {
    assert_eq!(rt; judged_with(rt.alloc(), (9, "", 9)), LEGAL);
}

#[test]
fn values_ends_and_later_dates_are_not_judged(rt: HostRuntime) {
    const CASES: [Change; 3] = [
        (1, "act Slow 0 0 0 10 3 stop\n", 2),
        (3, "pub v 2 1 7\n", 4),
        (5, "pub w 10 0 0\n", 5),
    ];
    for change in CASES {
        assert_eq!(rt; judged_with(rt.alloc(), change), LEGAL, "{change:?}");
    }
}

#[test]
fn no_line_is_out_of_form(rt: HostRuntime) {
    const CASES: [(Change, u32, u32); 5] = [
        ((6, "broken\n", 6), 1, 7),
        ((8, "", 9), 1, 9),
        ((8, "end 3\n", 9), 1, 9),
        ((9, "#\n", 9), 1, 10),
        ((9, "end 2\n", 9), 1, 10),
    ];
    for (change, number, line) in CASES {
        assert_eq!(rt;
            judged_with(rt.alloc(), change),
            wrong(number, line),
            "{change:?}"
        );
    }
}

#[test]
fn each_line_has_its_place(rt: HostRuntime) {
    const CASES: [(Change, u32, u32); 4] = [
        ((1, "act Fest 0 0 0 2 7 2\n", 1), 2, 2),
        ((8, "look Slow 0 7 x 0 0 0\n", 8), 2, 9),
        ((2, "act Slow 0 0 0 10 3 10\n", 2), 3, 3),
        ((8, "act Slow 1 1 10 20 0 -\n", 8), 3, 9),
    ];
    for (change, number, line) in CASES {
        assert_eq!(rt;
            judged_with(rt.alloc(), change),
            wrong(number, line),
            "{change:?}"
        );
    }
}

#[test]
fn actions_are_those_of_the_program(rt: HostRuntime) {
    const CASES: [(Change, u32, u32); 3] = [
        ((0, "act Fast 0 0 0 2 7 4\n", 1), 4, 1),
        ((1, "act Slow 0 0 1 10 3 10\n", 2), 4, 2),
        ((1, "act Slow 0 0 0 9 3 10\n", 2), 4, 2),
    ];
    for (change, number, line) in CASES {
        assert_eq!(rt;
            judged_with(rt.alloc(), change),
            wrong(number, line),
            "{change:?}"
        );
    }
}

#[test]
fn actions_have_the_cycles_that_they_tell_of(rt: HostRuntime) {
    const CASES: [(Change, u32, u32); 3] = [
        ((0, "act Fast 0 0 0 2 6 2\n", 1), 5, 1),
        ((0, "act Fast 0 0 0 2 7 -\n", 1), 5, 1),
        ((5, "seg 0 0 7 Fest 0\n", 6), 5, 1),
    ];
    for (change, number, line) in CASES {
        assert_eq!(rt;
            judged_with(rt.alloc(), change),
            wrong(number, line),
            "{change:?}"
        );
    }
}

#[test]
fn each_date_has_its_value(rt: HostRuntime) {
    const CASES: [(Change, u32, u32); 2] = [((3, "pub v 2 2 1\n", 4), 6, 4), ((3, "", 4), 6, 8)];
    for (change, number, line) in CASES {
        assert_eq!(rt;
            judged_with(rt.alloc(), change),
            wrong(number, line),
            "{change:?}"
        );
    }
}

#[test]
fn each_cycle_goes_to_the_action_that_is_due_first(rt: HostRuntime) {
    const CASES: [(Change, u32, u32); 3] = [
        ((5, "seg 0 0 3 Slow 0\nseg 0 3 10 Fast 0\n", 7), 7, 6),
        ((1, "", 2), 7, 6),
        ((1, "act Slow 0 0 0 10 3 -\n", 2), 7, 9),
    ];
    for (change, number, line) in CASES {
        assert_eq!(rt;
            judged_with(rt.alloc(), change),
            wrong(number, line),
            "{change:?}"
        );
    }
}

#[test]
fn stretches_are_whole_and_of_their_processor(rt: HostRuntime) {
    const CASES: [(Change, u32, u32); 3] = [
        ((6, "seg 0 8 11 Slow 0\n", 7), 7, 7),
        ((6, "seg 1 7 10 Slow 0\n", 7), 7, 7),
        ((6, "seg 0 7 9 Slow 0\nseg 0 9 10 Slow 0\n", 7), 7, 8),
    ];
    for (change, number, line) in CASES {
        assert_eq!(rt;
            judged_with(rt.alloc(), change),
            wrong(number, line),
            "{change:?}"
        );
    }
}

#[test]
fn looks_read_what_was_published(rt: HostRuntime) {
    const CASES: [(Change, u32, u32); 4] = [
        ((7, "look Slow 0 6 v 0 0 0\n", 8), 8, 8),
        ((7, "look Slow 0 7 v 1 4 0\n", 8), 8, 8),
        ((7, "look Slow 0 7 v 0 1 0\n", 8), 8, 8),
        ((7, "look Slow 0 7 v 0 0 1\n", 8), 8, 8),
    ];
    for (change, number, line) in CASES {
        assert_eq!(rt;
            judged_with(rt.alloc(), change),
            wrong(number, line),
            "{change:?}"
        );
    }
}
