//! Bytes that are read.
ghost use Rattle.std.specs.Prelude.{◌<◌, ◌≤◌, length};
ghost use Rattle.psy_base.specs.declared.limits.TheConstants.{FILE_BYTES};

use crate::input::plan_of_an_input;
use crate::made::nothing;
use crate::plans::plan_of_nothing;
use crate::spelled::bytes_of_reached;
use psy_dates::Opening;
use psy_snap::{StateFault, read, spell};
use std::alloc::Global;
use std::test::Fail;

// The number and the place of the fault of some bytes as a state of nothing.
fn fault_of(alloc: Global, bytes: &[u8]) -> Option<(u32, u32)>
    requires { length bytes.now ≤ FILE_BYTES }
{
    match read(alloc, bytes, &plan_of_nothing(alloc), &[]) {
        Ok(_) => None,
        Err(StateFault::Fault { number, place }) => Some((number, place)),
        Err(StateFault::Memory) => None,
    }
}

// What is read of the state with a variable.
fn reached(alloc: Global) -> Option<Opening> {
    read(alloc, &bytes_of_reached(), &plan_of_an_input(alloc)?, &[]).ok()
}

// The number and the place of the fault that it has with another byte at a place.
fn fault_with(alloc: Global, place: usize, byte: u8) -> Option<(u32, u32)>
    requires { place < 25 }
{
    let mut bytes = bytes_of_reached();
    bytes[place] = byte;
    match read(alloc, &bytes, &plan_of_an_input(alloc)?, &[]) {
        Ok(_) => None,
        Err(StateFault::Fault { number, place }) => Some((number, place)),
        Err(StateFault::Memory) => None,
    }
}

#[test]
fn what_is_spelled_is_read(rt: HostRuntime) -> Result<(), Fail> {
    let bytes = spell(rt.alloc(), &nothing(rt.alloc()))
        .ok()
        .ok_or("memory is there")?;
    let plan = plan_of_nothing(rt.alloc());
    let state = read(rt.alloc(), bytes.as_slice(), &plan, &[])
        .ok()
        .ok_or("it is read")?;
    assert_eq!(rt; state.date, 0);
    Ok(())
}

#[test]
fn the_first_fault_is_told(rt: HostRuntime) -> Result<(), Fail> {
    assert_eq!(rt; fault_of(rt.alloc(), b"PSYS\x01\0\0\0\0"), None);
    assert_eq!(rt; fault_of(rt.alloc(), b"PSYC\x01\0\0\0\0"), Some((1, 0)));
    assert_eq!(rt; fault_of(rt.alloc(), b"PSYS\x01\x01\0\0\0"), Some((1, 5)));
    assert_eq!(rt; fault_of(rt.alloc(), b"PSYS\x01\0\0\0\0\x07"), Some((1, 9)));
    Ok(())
}

#[test]
fn a_variable_is_read(rt: HostRuntime) -> Result<(), Fail> {
    let state = reached(rt.alloc()).ok_or("it is read")?;
    let variable = state.variables.as_slice().first().ok_or("one is there")?;
    assert_eq!(rt; state.date, 7);
    assert_eq!(rt; variable.values.as_slice(), [4, -2].as_slice());
    assert_eq!(rt; variable.reach, Some(1));
    Ok(())
}

// By date 7 one value was published, so the first value stands behind it; a reach is below the two places of the ring.
#[test]
fn a_bad_byte_of_a_variable_is_told(rt: HostRuntime) -> Result<(), Fail> {
    assert_eq!(rt; fault_with(rt.alloc(), 13, 0), Some((1, 13)));
    assert_eq!(rt; fault_with(rt.alloc(), 17, 0), Some((1, 21)));
    assert_eq!(rt; fault_with(rt.alloc(), 17, 2), Some((1, 17)));
    assert_eq!(rt; fault_with(rt.alloc(), 21, 2), Some((1, 21)));
    Ok(())
}
