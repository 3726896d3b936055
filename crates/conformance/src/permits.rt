//! Permits and the interrupt status (`LockSupport`, `Thread.interrupt`).

use items::NoMemory;
use std::alloc::Global;
use std::test::Fail;
use wakes::Wakes;

// The permits that are taken after two calls of unpark, and whether another thread has one.
fn taken(alloc: Global) -> Result<(bool, bool, bool), NoMemory> {
    let mut wakes = Wakes::new(alloc)?;
    wakes.add()?;
    wakes.add()?;
    wakes.unpark(1);
    wakes.unpark(1);
    let first = wakes.take_permit(1);
    let second = wakes.take_permit(1);
    wakes.unpark(1);
    Ok((first, second, wakes.permit(0)))
}

#[test]
fn permits_do_not_add_up(rt: HostRuntime) -> Result<(), Fail> {
    let (first, second, other) = taken(rt.alloc()).ok().ok_or("memory")?;
    assert!(rt; first);
    assert!(rt; !second);
    assert!(rt; !other);
    Ok(())
}

// The interrupt status after an interrupt, when it is cleared, and after that.
fn statuses(alloc: Global) -> Result<(bool, bool, bool), NoMemory> {
    let mut wakes = Wakes::new(alloc)?;
    wakes.add()?;
    wakes.interrupt(0);
    let set = wakes.interrupted(0);
    let cleared = wakes.take_interrupt(0);
    Ok((set, cleared, wakes.interrupted(0)))
}

#[test]
fn an_interrupt_is_taken_once(rt: HostRuntime) -> Result<(), Fail> {
    let (set, cleared, after) = statuses(rt.alloc()).ok().ok_or("memory")?;
    assert!(rt; set);
    assert!(rt; cleared);
    assert!(rt; !after);
    Ok(())
}
