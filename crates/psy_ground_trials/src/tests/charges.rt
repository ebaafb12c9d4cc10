//! Stalls and budgets, cycle by cycle and in stretches.
use psy_base::Items;
use psy_budget::{Charge, Stall, Tick, laws};
use std::process::Abort;
use std::test::Fail;

// A stall of the agent: its action, its instruction and its cycles.
macro_rules! stall {
    ($action:literal, $instr:literal, $cycles:literal) => {
        Stall {
            agent: 3,
            action: $action,
            instr: $instr,
            cycles: $cycles,
        }
    };
}

fn compare_ticks(rt: &impl Abort, charge: &mut Charge, want: &[Tick]) {
    let mut cycle = 0u64;
    for tick in want {
        assert_eq!(rt; charge.tick(), *tick, "cycle {cycle}");
        cycle = cycle.wrapping_add(1);
    }
}

#[test]
fn stalls_come_before_their_instructions_and_the_budget_ends_both(
    rt: HostRuntime,
) -> Result<(), Fail> {
    const FIRST: [Tick; 6] = [
        Tick::Paid,
        Tick::Stalled,
        Tick::Stalled,
        Tick::Paid,
        Tick::Paid,
        Tick::Spent,
    ];
    const STALLS: [Stall; 3] = [stall!(0, 1, 2), stall!(1, 0, 1), stall!(1, 9, 4)];
    const SECOND: [Tick; 3] = [Tick::Stalled, Tick::Paid, Tick::Spent];
    let mut charge = Charge::new(Items::from_slice(rt.alloc(), &STALLS)?);
    charge.start(5);
    assert!(rt; !charge.spent());
    compare_ticks(&rt, &mut charge, &FIRST);
    assert!(rt; charge.spent());
    charge.start(2);
    compare_ticks(&rt, &mut charge, &SECOND);
    laws::units();
    Ok(())
}

// Pays all that can be paid at once, up to `most`.
fn pay_free(charge: &mut Charge, most: u64) -> u64 {
    let cycles = charge.free(most);
    charge.pay(cycles);
    cycles
}

#[test]
fn stretches_go_up_to_the_next_stall_and_the_budget(rt: HostRuntime) -> Result<(), Fail> {
    const STALLS: [Stall; 3] = [stall!(0, 0, 3), stall!(0, 1, 0), stall!(0, 2, 4)];
    let mut charge = Charge::new(Items::from_slice(rt.alloc(), &STALLS)?);
    assert_eq!(rt;
        (charge.skip(9), charge.free(9)),
        (0, 0),
        "before its first action"
    );
    charge.start(10);
    assert_eq!(rt; charge.free(9), 0, "a stall is left");
    for (most, cycles) in [(2, 2), (9, 1), (9, 0)] {
        assert_eq!(rt; charge.skip(most), cycles, "the first stall");
    }
    assert_eq!(rt; charge.free(1), 1);
    for (most, stalled, paid) in [(9, 0, 2), (9, 4, 1), (9, 0, 0)] {
        assert_eq!(rt; charge.skip(most), stalled, "stalled cycles");
        assert_eq!(rt; pay_free(&mut charge, most), paid, "paid cycles");
    }
    assert_eq!(rt; charge.tick(), Tick::Spent);
    laws::stretches();
    Ok(())
}

#[test]
fn an_action_is_started_by_its_number(rt: HostRuntime) -> Result<(), Fail> {
    const STALLS: [Stall; 3] = [stall!(0, 0, 9), stall!(7, 0, 1), stall!(8, 0, 9)];
    const EIGHTH: [Tick; 4] = [Tick::Stalled, Tick::Paid, Tick::Paid, Tick::Spent];
    const NINTH: [Tick; 3] = [Tick::Stalled, Tick::Stalled, Tick::Spent];
    let mut charge = Charge::new(Items::from_slice(rt.alloc(), &STALLS)?);
    charge.start_at(7, 3);
    compare_ticks(&rt, &mut charge, &EIGHTH);
    charge.start(2);
    compare_ticks(&rt, &mut charge, &NINTH);
    laws::starts();
    Ok(())
}
