//! Values in and out of a ring.
use psy_ring::Ring;
use std::test::Fail;

#[test]
fn the_newest_value_stands_first_and_the_oldest_goes_out(rt: HostRuntime) -> Result<(), Fail> {
    let mut ring = Ring::new(rt.alloc(), 3, -7)?;
    assert_eq!(rt; ring.look(2), -7);
    ring.publish(1);
    ring.publish(2);
    ring.publish(3);
    ring.publish(4);
    assert_eq!(rt; [ring.look(0), ring.look(1), ring.look(2)], [4, 3, 2]);
    Ok(())
}
