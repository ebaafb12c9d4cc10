//! Which of two agents comes first.
ghost use Rattle.std.specs.Prelude.{◌≡◌, length};

use psy_ready::Ready;
use std::test::Fail;

// Picks in the order in which the agents are declared.
fn pick_as_declared(ready: &Ready) -> Option<u32>
    requires { length ready.now ≡ 2 }
{
    ready.pick(&[0, 1])
}

// Picks in the other order.
fn pick_turned(ready: &Ready) -> Option<u32>
    requires { length ready.now ≡ 2 }
{
    ready.pick(&[1, 0])
}

#[test]
fn ties_go_by_the_order(rt: HostRuntime) -> Result<(), Fail> {
    let mut ready = Ready::new(rt.alloc(), 2)?;
    assert_eq!(rt; pick_as_declared(&ready), None);
    ready.add(1, 10);
    ready.add(0, 10);
    assert_eq!(rt; pick_as_declared(&ready), Some(0));
    assert_eq!(rt; pick_turned(&ready), Some(1));
    Ok(())
}

#[test]
fn the_least_deadline_comes_first(rt: HostRuntime) -> Result<(), Fail> {
    let mut ready = Ready::new(rt.alloc(), 2)?;
    ready.add(1, 10);
    ready.add(0, 10);
    ready.drop_agent(0);
    ready.add(0, 9);
    assert_eq!(rt; pick_turned(&ready), Some(0));
    Ok(())
}
