//! The numbers of the profile.
use psy_base::limits;

#[test]
fn counts_have_their_limits(rt: HostRuntime) {
    const CASES: [(usize, usize, &str); 11] = [
        (limits::FILE_BYTES, 262_144, "bytes of a file"),
        (limits::CLOCKS, 64, "clocks"),
        (limits::AGENTS, 64, "agents"),
        (limits::VARIABLES, 256, "variables"),
        (limits::STREAMS, 64, "streams"),
        (limits::FUNCTIONS, 64, "functions"),
        (limits::NAMES, 64, "names"),
        (limits::POINTS, 256, "points"),
        (limits::WORD_BYTES, 32, "bytes of a word"),
        (limits::WORD_DIGITS, 12, "digits of a word"),
        (limits::LINES, 10_000, "lines of a file"),
    ];
    for (limit, number, name) in CASES {
        assert_eq!(rt; limit, number, "{name}");
    }
}

#[test]
fn numbers_have_their_limits(rt: HostRuntime) {
    const CASES: [(u32, u32, &str); 19] = [
        (limits::LITERAL, 2_147_483_647, "value of a number"),
        (limits::QUANTUM, 1_000_000, "cycles of a tick"),
        (limits::BUDGET, 1_000_000, "cycles of a budget"),
        (limits::DEPTH, 1_024, "dates looked back"),
        (limits::KEEP, 1_024, "dates kept"),
        (limits::ADVANCE, 1_024, "dates of an advance"),
        (limits::AFTER, 1_024, "dates of a delay"),
        (limits::TURNS, 65_536, "turns"),
        (limits::CELLS, 256, "cells"),
        (limits::PROCESSORS, 8, "processors"),
        (limits::BRACKETS, 64, "open brackets"),
        (limits::OPERATORS, 256, "operators"),
        (limits::OPEN_CALLS, 64, "open calls"),
        (limits::UNTIL, 1_000_000, "last date"),
        (limits::NODES, 512, "nodes of a graph"),
        (limits::EDGES, 4_096, "edges of a graph"),
        (limits::RING, 65_536, "places of a ring"),
        (limits::QUEUE, 65_536, "places of a queue"),
        (
            psy_queue::MOST_PLACES,
            131_072,
            "places of a queue with its first messages",
        ),
    ];
    for (limit, number, name) in CASES {
        assert_eq!(rt; limit, number, "{name}");
    }
}

#[test]
fn sums_have_their_limits(rt: HostRuntime) {
    const CASES: [(u64, u64, &str); 6] = [
        (limits::UNIT_SIZE, 1_048_576, "size of a unit"),
        (limits::COST, 1_000_000_000, "cost of an action"),
        (limits::SENDS, 65_537, "sends of an action"),
        (
            limits::WINDOW_CELLS,
            4_000_000,
            "cells of a table of windows",
        ),
        (limits::RUN, 100_000_000, "cycles of a run"),
        (limits::STALL, 1_000_000, "cycles of a stall"),
    ];
    for (limit, number, name) in CASES {
        assert_eq!(rt; limit, number, "{name}");
    }
}
