//! Names, as the keys that they are.
use psy_base::Text;
use std::collections::HashMap;
use std::test::Fail;

#[test]
fn a_name_is_its_bytes(rt: HostRuntime) -> Result<(), Fail> {
    let clock = Text::from_bytes(rt.alloc(), b"clock")?;
    let agent = Text::from_bytes(rt.alloc(), b"agent")?;
    assert_eq!(rt; clock.bytes(), b"clock".as_slice());
    assert!(rt; clock != agent);
    Ok(())
}

#[test]
fn names_of_the_same_bytes_are_one_key(rt: HostRuntime) -> Result<(), Fail> {
    let mut places = HashMap::new(rt.alloc());
    places.insert(Text::from_bytes(rt.alloc(), b"clock")?, 1u32)?;
    places.insert(Text::from_bytes(rt.alloc(), b"agent")?, 2u32)?;
    let again = Text::from_bytes(rt.alloc(), b"clock")?;
    assert_eq!(rt; places.get(&again).copied(), Some(1));
    Ok(())
}
