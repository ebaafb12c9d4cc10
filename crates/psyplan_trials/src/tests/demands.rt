//! Demands worked out by hand.
use psy_base::Items;
use psy_demand::{Verdict, feasible};
use std::test::Fail;

/// By hand, of an agent that starts an action of budget 8 at each second tick and has two ticks for it.
const FAST: [u64; 11] = [0, 0, 8, 8, 16, 16, 24, 24, 32, 32, 40];

/// By hand, of one that starts an action of budget 50 at each tenth tick and has ten for it.
const SLOW: [u64; 11] = [0, 0, 0, 0, 0, 0, 0, 0, 0, 0, 50];

/// The first with budget 12.
const GREEDY: [u64; 11] = [0, 0, 12, 12, 24, 24, 36, 36, 48, 48, 60];

#[test]
fn the_least_length_that_does_not_fit_is_told(rt: HostRuntime) -> Result<(), Fail> {
    let fits = [
        Items::from_slice(rt.alloc(), &FAST)?,
        Items::from_slice(rt.alloc(), &SLOW)?,
    ];
    assert_eq!(rt; feasible(&fits, 10, 10), Verdict::Yes, "90 of 100");
    assert_eq!(rt; feasible(&fits, 9, 10), Verdict::Yes, "90 of 90");
    let passes = [
        Items::from_slice(rt.alloc(), &GREEDY)?,
        Items::from_slice(rt.alloc(), &SLOW)?,
    ];
    let no = Verdict::No {
        length: 10,
        demand: 110,
    };
    assert_eq!(rt; feasible(&passes, 10, 10), no, "110 of 100");
    let early = Verdict::No {
        length: 2,
        demand: 12,
    };
    assert_eq!(rt;
        feasible(&passes, 5, 10),
        early,
        "12 of 10 comes before 110 of 50"
    );
    assert_eq!(rt; feasible(&[], 0, 100), Verdict::Yes, "no agents");
    Ok(())
}
