//! Run deques and monitors.

ghost use Rattle.std.specs.Prelude.{◌≡◌, ◌≤◌, ℕ, IfOk};
ghost use Rattle.monitors.specs.Monitors.{free, monitor_of};

use items::NoMemory;
use monitors::{Enter, Monitors};
use run_deques::Deques;
use std::alloc::Global;
use std::test::Fail;

#[test]
fn a_take_goes_round_the_deques(rt: HostRuntime) -> Result<(), Fail> {
    let mut deques = Deques::new(rt.alloc(), 3)?;
    deques.room(9)?;
    deques.put(1, 8);
    assert_eq!(rt; deques.take(0), Some((1, 8)));
    assert_eq!(rt; deques.take(0), None);
    Ok(())
}

// Monitors that so many threads may use, in so many calls.
fn monitors_for(alloc: Global, threads: u32, calls: u32) -> Result<Monitors, NoMemory>
    ensures threads { IfOk result (λ monitors. monitors.threads ≡ threads) }
    ensures spare { IfOk result (λ monitors. calls ≤ monitors.spare) }
    ensures free { IfOk result (λ monitors. (o : ℕ) → monitor_of monitors o ≡ free) }
{
    let mut monitors = Monitors::new(alloc);
    for _i in 0..threads {
        let _ = monitors.add_thread()?;
    }
    monitors.room(calls)?;
    Ok(monitors)
}

#[test]
fn a_monitor_is_left_as_often_as_it_was_entered(rt: HostRuntime) -> Result<(), Fail> {
    let mut monitors = monitors_for(rt.alloc(), 6, 3)?;
    assert!(rt; !monitors.holds(4));
    assert_eq!(rt; monitors.enter(9, 4), Enter::Got);
    assert!(rt; !monitors.holds(4));
    assert_eq!(rt; monitors.enter(9, 4), Enter::Got);
    assert_eq!(rt; monitors.exit(9, 4)?, None);
    let refusal = monitors.exit(9, 5).err();
    assert_eq!(rt; refusal.and_then(|refusal| refusal.owner), Some(4));
    Ok(())
}

#[test]
fn a_woken_thread_may_be_overtaken(rt: HostRuntime) -> Result<(), Fail> {
    let mut monitors = monitors_for(rt.alloc(), 7, 4)?;
    assert!(rt; !monitors.holds(4));
    assert_eq!(rt; monitors.enter(9, 4), Enter::Got);
    assert!(rt; !monitors.holds(5));
    assert_eq!(rt; monitors.enter(9, 5), Enter::Blocked);
    assert_eq!(rt; monitors.exit(9, 4)?, Some(5));
    assert!(rt; !monitors.holds(6));
    assert_eq!(rt; monitors.enter(9, 6), Enter::Got);
    assert!(rt; !monitors.retake(9, 5, 1));
    Ok(())
}
