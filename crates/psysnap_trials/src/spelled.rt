//! The bytes of states that were made by hand.
use crate::made::{nothing, reached, something, waiting};
use psy_snap::spell;
use std::test::Fail;

// The mark, and date 0
const NOTHING: [u8; 9] = [80, 83, 89, 83, 1, 0, 0, 0, 0];

// The mark and date 7; kind 1, number 5, point 2, a cell of 3, a copy of -1, a count of 1 with a slack of 12; values of 4 and -2, and a reach of 1; at most 2
// held, one of them there: visible at 6, entered at 3, of sender 0 by number 258, until 12, with value 9
const SOMETHING: [u8; 117] = [
    80, 83, 89, 83, 1, 7, 0, 0, 0, // mark and date
    1, 0, 0, 0, 5, 0, 0, 0, 0, 0, 0, 0, 2, 0, 0, 0, 3, 0, 0, 0, 0, 0, 0, 0, 255, 255, 255, 255, 1,
    0, 0, 0, 0, 0, 0, 0, 1, 0, 0, 0, 12, 0, 0, 0, 0, 0, 0, 0, // the agent
    4, 0, 0, 0, 254, 255, 255, 255, 1, 0, 0, 0, 1, 0, 0, 0, // the variable
    2, 0, 0, 0, 1, 0, 0, 0, 6, 0, 0, 0, 0, 0, 0, 0, 3, 0, 0, 0, 0, 0, 0, 0, 0, 0, 0, 0, 2, 1, 0, 0,
    12, 0, 0, 0, 0, 0, 0, 0, 9, 0, 0, 0,
];

// The mark and date 7; kind 0, a count of 0 and no slack
const WAITING: [u8; 25] = [
    80, 83, 89, 83, 1, 7, 0, 0, 0, 0, 0, 0, 0, 0, 0, 0, 0, 0, 0, 0, 0, 0, 0, 0, 0,
];

// The mark and date 7; values of 4 and -2, and a reach of 1
const REACHED: [u8; 25] = [
    80, 83, 89, 83, 1, 7, 0, 0, 0, // mark and date
    4, 0, 0, 0, 254, 255, 255, 255, 1, 0, 0, 0, 1, 0, 0, 0, // the variable
];

// Nothing is said of these bytes, so that no proof computes with them.
fn bytes_of_nothing() -> [u8; 9] {
    NOTHING
}

fn bytes_of_something() -> [u8; 117] {
    SOMETHING
}

fn bytes_of_waiting() -> [u8; 25] {
    WAITING
}

/// The bytes of the state with a variable.
pub fn bytes_of_reached() -> [u8; 25] {
    REACHED
}

#[test]
fn a_state_of_nothing_is_its_mark_and_its_date(rt: HostRuntime) -> Result<(), Fail> {
    let state = nothing(rt.alloc());
    let bytes = spell(rt.alloc(), &state).ok().ok_or("memory is there")?;
    assert_eq!(rt; bytes.as_slice(), bytes_of_nothing().as_slice());
    Ok(())
}

#[test]
fn numbers_stand_with_the_lowest_byte_first(rt: HostRuntime) -> Result<(), Fail> {
    let state = something(rt.alloc()).ok_or("memory is there")?;
    let bytes = spell(rt.alloc(), &state).ok().ok_or("memory is there")?;
    assert_eq!(rt; bytes.as_slice(), bytes_of_something().as_slice());
    Ok(())
}

#[test]
fn an_agent_that_has_not_begun_has_its_figures_alone(rt: HostRuntime) -> Result<(), Fail> {
    let state = waiting(rt.alloc()).ok_or("memory is there")?;
    let bytes = spell(rt.alloc(), &state).ok().ok_or("memory is there")?;
    assert_eq!(rt; bytes.as_slice(), bytes_of_waiting().as_slice());
    Ok(())
}

#[test]
fn a_variable_has_its_values_and_its_reach(rt: HostRuntime) -> Result<(), Fail> {
    let state = reached(rt.alloc()).ok_or("memory is there")?;
    let bytes = spell(rt.alloc(), &state).ok().ok_or("memory is there")?;
    assert_eq!(rt; bytes.as_slice(), bytes_of_reached().as_slice());
    Ok(())
}
