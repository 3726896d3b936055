//! The table of threads (`Thread.State`, `Thread.start`).

use std::alloc::Global;
use std::test::Fail;
use vthread_state::{JavaState, Phase, Status, ThreadError, ThreadKind, ThreadTable, Wake};

// Another thread of a table.
fn added(table: &mut ThreadTable) -> Result<u32, ThreadError> {
    table.add(ThreadKind::Virtual, true, 7, 8)
}

#[test]
fn threads_are_added_up_to_the_limit(rt: HostRuntime) -> Result<(), Fail> {
    let mut table = ThreadTable::new(rt.alloc(), 2).ok().ok_or("memory")?;
    assert_eq!(rt; added(&mut table), Ok(0));
    assert_eq!(rt; added(&mut table), Ok(1));
    assert_eq!(rt; added(&mut table), Err(ThreadError::Full));
    assert_eq!(rt; table.count(), 2);
    assert_eq!(rt; table.state(1), JavaState::New);
    assert!(rt; table.start(1).is_ok());
    assert_eq!(rt; table.count(), 2);
    assert_eq!(rt; table.state(1), JavaState::Runnable);
    assert!(rt; table.start(1).is_err());
    assert_eq!(rt; table.count(), 2);
    assert_eq!(rt; table.object(1), 7);
    Ok(())
}

#[test]
fn states_of_a_thread(rt: HostRuntime) -> Result<(), Fail> {
    let table = [
        (Status::New, JavaState::New),
        (Status::Live(Phase::Run), JavaState::Runnable),
        (Status::Live(Phase::Throwing(3)), JavaState::Runnable),
        (Status::Live(Phase::Entering(3)), JavaState::Blocked),
        (Status::Live(waiting(None)), JavaState::Waiting),
        (Status::Live(waiting(Some(9))), JavaState::TimedWaiting),
        (Status::Live(reenter()), JavaState::Blocked),
        (Status::Live(Phase::Parked(None)), JavaState::Waiting),
        (
            Status::Live(Phase::Parked(Some(9))),
            JavaState::TimedWaiting,
        ),
        (Status::Live(Phase::Asleep(9)), JavaState::TimedWaiting),
        (Status::Live(joining(None)), JavaState::Waiting),
        (Status::Live(joining(Some(9))), JavaState::TimedWaiting),
        (Status::Done, JavaState::Terminated),
    ];
    for (status, state) in table {
        assert_eq!(rt; JavaState::from(status), state);
    }
    Ok(())
}

const fn waiting(deadline: Option<u64>) -> Phase {
    Phase::Waiting {
        monitor: 3,
        count: 1,
        deadline,
    }
}

const fn reenter() -> Phase {
    Phase::Reenter {
        monitor: 3,
        count: 1,
        wake: Wake::Notified,
    }
}

const fn joining(deadline: Option<u64>) -> Phase {
    Phase::Joining {
        target: 0,
        deadline,
    }
}

// Threads 3, 1 and 2 come to join thread 0, in this order, and thread 1 leaves again.
fn joiners(alloc: Global) -> Result<(Vec<u32>, Vec<u32>), ThreadError> {
    let mut table = ThreadTable::new(alloc, 4)?;
    for _ in 0..4 {
        let t = added(&mut table)?;
        if t < table.count() {
            let _ = table.start(t);
        }
    }
    for t in [3, 1, 2] {
        join_first(&mut table, t);
    }
    let all = joined(&table)?;
    leave(&mut table, 1);
    Ok((all, joined(&table)?))
}

// The threads that join thread 0.
fn joined(table: &ThreadTable) -> Result<Vec<u32>, ThreadError> {
    if table.count() == 0 {
        return Err(ThreadError::Full);
    }
    Ok(table.joiners(0)?)
}

fn join_first(table: &mut ThreadTable, t: u32) {
    if t < table.count() && table.is_alive(t) {
        table.set_phase(
            t,
            Phase::Joining {
                target: 0,
                deadline: None,
            },
        );
    }
}

fn leave(table: &mut ThreadTable, t: u32) {
    if t < table.count() && table.is_alive(t) {
        table.set_phase(t, Phase::Run);
    }
}

#[test]
fn joiners_in_rising_order(rt: HostRuntime) -> Result<(), Fail> {
    let (all, left) = joiners(rt.alloc()).ok().ok_or("no table")?;
    assert!(rt; all.as_slice() == [1, 2, 3].as_slice());
    assert!(rt; left.as_slice() == [2, 3].as_slice());
    Ok(())
}
