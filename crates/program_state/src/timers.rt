//! The deadlines of threads on the wheel, each under a key.

ghost use Rattle.std.specs.Prelude.{◌≡◌, ◌<◌, length, slice_set, OnOk};
ghost use Rattle.program_state.specs.Deadlines as deadlines;
ghost use Rattle.program_state.specs.Timers.{IsTimerCleared, IsTimerSet, without_keys};

use items::NoMemory;
use sleep_wheel::{Key, Wheel};

// A deadline, where it is greater than the time. Both are in nanoseconds.
fn later_than(now: u64, deadline: Option<u64>) -> Option<u64>
    ensures { result ≡ deadlines.later_than now deadline }
{
    let deadline = deadline?;
    if now < deadline { Some(deadline) } else { None }
}

// A thread that has no deadline has this one now, in nanoseconds. A thread that isn't there counts as memory run out.
fn add_sleeper(
    wheel: &mut Wheel,
    keys: &mut Vec<Option<Key>>,
    t: u32,
    deadline: u64,
) -> Result<(), NoMemory>
    ensures { OnOk result (IsTimerSet t (Some deadline) wheel.old keys.old.items
        wheel.new keys.new.items) }
{
    if t as usize >= keys.len() {
        return Err(NoMemory);
    }
    wheel.room(1)?;
    let key = wheel.add(t, deadline);
    keys[t as usize] = Some(key);
    Ok(())
}

/// The deadline of a thread that has none goes onto the wheel, where it is greater than the time.
pub fn set_timer(
    wheel: &mut Wheel,
    keys: &mut Vec<Option<Key>>,
    now: u64,
    t: u32,
    deadline: Option<u64>,
) -> Result<(), NoMemory>
    ensures { OnOk result (IsTimerSet t (deadlines.later_than now deadline)
        wheel.old keys.old.items wheel.new keys.new.items) }
{
    match later_than(now, deadline) {
        Some(deadline) => add_sleeper(wheel, keys, t, deadline),
        None => Ok(()),
    }
}

// The key of a thread, if it has one.
fn key_of(keys: &Vec<Option<Key>>, t: u32) -> Option<Key>
    ensures { deadlines.key_number result ≡ deadlines.key_at keys.now.items t }
{
    match keys.get(t as usize) {
        Some(key) => *key,
        None => None,
    }
}

// The key of a thread is given up.
fn clear_key(keys: &mut Vec<Option<Key>>, t: u32)
    ensures { keys.new.items ≡ slice_set keys.old.items t None }
{
    if (t as usize) < keys.len() {
        keys[t as usize] = None;
    }
}

/// The deadline of a thread comes off the wheel, if it is there. A key that no sleeper has counts as memory run out.
pub fn clear_timer(wheel: &mut Wheel, keys: &mut Vec<Option<Key>>, t: u32) -> Result<(), NoMemory>
    ensures { OnOk result (IsTimerCleared t wheel.old keys.old.items
        wheel.new keys.new.items) }
{
    let Some(key) = key_of(keys, t) else {
        return Ok(());
    };
    if !wheel.holds(key) {
        return Err(NoMemory);
    }
    wheel.remove(key);
    clear_key(keys, t);
    Ok(())
}

/// The keys of some threads are given up.
pub(crate) fn clear_keys(keys: &mut Vec<Option<Key>>, threads: &[u32])
    ensures { keys.new.items ≡ without_keys keys.old.items threads.now }
{
    for t in threads {
        clear_key(keys, *t);
    }
}
