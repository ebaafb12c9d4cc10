//! Messages in order, taken and expired.
ghost use Rattle.std.specs.Prelude.{◌≡◌, IfOk, length};

use psy_base::Memory;
use psy_queue::{MOST_PLACES, Message, Queue};
use std::alloc::Global;
use std::process::Abort;
use std::test::Fail;

// A message: its visibility, entry, sender, expiry and value.
macro_rules! message {
    ($visible:literal, $entry:literal, $sender:literal, $expiry:literal, $value:literal) => {
        Message {
            visible: $visible,
            entry: $entry,
            sender: $sender,
            number: 0,
            expiry: $expiry,
            value: $value,
        }
    };
}

const MESSAGES: [Message; 4] = [
    message!(20, 10, 1, 40, 1),
    message!(10, 10, 2, 30, 2),
    message!(20, 10, 0, 40, 3),
    message!(20, 5, 3, 25, 4),
];

// A full queue of these messages: the order of their values is 2, 4, 3, 1.
fn filled(alloc: Global) -> Result<Queue, Memory>
    ensures { IfOk result (λ queue. length queue.messages ≡ 4) }
{
    let mut queue = Queue::new(alloc, 4)?;
    queue.enter(MESSAGES[0]);
    queue.enter(MESSAGES[1]);
    queue.enter(MESSAGES[2]);
    queue.enter(MESSAGES[3]);
    Ok(queue)
}

// Compares the values that a queue holds, from the first place on.
fn compare(rt: &impl Abort, queue: &Queue, want: &[i32]) {
    assert_eq!(rt; queue.held() as usize, want.len());
    for place in 0..queue.held() {
        let value = queue.value(place);
        assert_eq!(rt;
            want.get(place as usize).copied(),
            Some(value),
            "place {place}"
        );
    }
}

#[test]
fn messages_stand_in_order(rt: HostRuntime) -> Result<(), Fail> {
    let queue = filled(rt.alloc())?;
    compare(&rt, &queue, &[2, 4, 3, 1]);
    for (start, seen) in [(9, 0), (10, 1), (20, 4)] {
        assert_eq!(rt; queue.seen(start), seen, "visible at {start}");
    }
    for (place, which) in [(0, 1), (1, 3), (2, 2), (3, 0)] {
        assert_eq!(rt; queue.message(place), MESSAGES[which], "at {place}");
    }
    Ok(())
}

#[test]
fn a_queue_may_have_the_most_places(rt: HostRuntime) -> Result<(), Fail> {
    let mut queue = Queue::new(rt.alloc(), MOST_PLACES)?;
    queue.enter(MESSAGES[0]);
    compare(&rt, &queue, &[1]);
    Ok(())
}

#[test]
fn messages_go_where_they_are_taken_or_expire(rt: HostRuntime) -> Result<(), Fail> {
    let mut queue = filled(rt.alloc())?;
    queue.settle(25, 1);
    compare(&rt, &queue, &[3, 1]);
    Ok(())
}
