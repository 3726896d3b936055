//! Sleeping threads by their deadlines.

use items::NoMemory;
use sleep_wheel::Wheel;
use std::alloc::Global;
use std::test::Fail;

/// What is due at 49 and at 100, and the earliest deadline before and after.
#[derive(Drop)]
struct Woken {
    before: Option<u64>,
    at_49: Vec<u32>,
    at_100: Vec<u32>,
    after: Option<u64>,
}

fn wake_all(alloc: Global) -> Result<Woken, NoMemory> {
    let mut wheel = Wheel::new(alloc)?;
    wheel.room(3)?;
    wheel.add(7, 100);
    wheel.add(3, 100);
    wheel.add(5, 50);
    let before = wheel.earliest();
    let at_49 = wheel.due(49)?;
    let at_100 = wheel.due(100)?;
    Ok(Woken {
        before,
        at_49,
        at_100,
        after: wheel.earliest(),
    })
}

#[test]
fn sleepers_wake_in_the_order_of_their_deadlines(rt: HostRuntime) -> Result<(), Fail> {
    let woken = wake_all(rt.alloc()).ok().ok_or("memory")?;
    assert_eq!(rt; woken.before, Some(50));
    assert!(rt; woken.at_49.is_empty());
    assert!(rt; woken.at_100.as_slice() == [5, 3, 7].as_slice());
    assert_eq!(rt; woken.after, None);
    Ok(())
}

// What is left of three sleepers when one is removed and another takes its place.
fn left(alloc: Global) -> Result<(Option<u64>, Vec<u32>), NoMemory> {
    let mut wheel = Wheel::new(alloc)?;
    wheel.room(3)?;
    let first = wheel.add(1, 10);
    wheel.add(2, 20);
    wheel.remove(first);
    let earliest = wheel.earliest();
    wheel.room(1)?;
    wheel.add(3, 20);
    Ok((earliest, wheel.due(u64::MAX)?))
}

#[test]
fn a_sleeper_that_is_removed_does_not_wake(rt: HostRuntime) -> Result<(), Fail> {
    let (earliest, threads) = left(rt.alloc()).ok().ok_or("memory")?;
    assert_eq!(rt; earliest, Some(20));
    assert!(rt; threads.as_slice() == [2, 3].as_slice());
    Ok(())
}
