//! The sleepers of a wheel in a heap, the first to wake on top. A sleeper that is removed stays in the heap, where its alarm is stale,
//! until it comes to the top or the stale ones are more than the others. The alarm on top is never stale.

ghost use Rattle.std.specs.Prelude.{◌≡◌, ◌↔◌, ◌+◌, ◌*◌, ◌<◌, ◌≤◌, ◌∷◌, IsTrue, IfSome, IfNone, OnSome, IsPermutation};
ghost use Rattle.std.specs.BinaryHeap.{heap_items, heap_len, heap_capacity, KeepsHeap};
ghost use Rattle.slab.specs.Slab.{slab_len};
ghost use Rattle.sleep_wheel.specs.Sleepers.{TakesFirst, NoneDue};
ghost use Rattle.sleep_wheel.specs.Alarms.{alarm_cmp, alarm_of, IsLive, Covers, IsOnTop};

use crate::sleeper::Sleeper;
use slab::Slab;
use std::cmp::Reverse;
use std::collections::BinaryHeap;

/// A sleeper and its key.
#[derive(Clone, Copy, PartialEq, Eq, PartialOrd, Ord)]
pub struct Alarm {
    pub sleeper: Sleeper,
    pub key: usize,
}

fn is_live(sleepers: &Slab<Sleeper>, alarm: Alarm) -> bool
    ensures { IsTrue result ↔ IsLive sleepers.now.slots alarm }
{
    sleepers.get(alarm.key).copied() == Some(alarm.sleeper)
}

/// Adds an alarm, for which there is room.
pub fn push_reserved(alarms: &mut BinaryHeap<Reverse<Alarm>>, alarm: Alarm)
    requires { heap_len alarms.old < heap_capacity alarms.old }
    ensures added { IsPermutation (alarm_of alarm.sleeper alarm.key ∷ heap_items alarms.old)
        (heap_items alarms.new) }
    ensures heap { KeepsHeap alarm_cmp (heap_items alarms.old) (heap_items alarms.new) }
    ensures len { heap_len alarms.new ≡ heap_len alarms.old + 1 }
    ensures capacity { heap_capacity alarms.old ≤ heap_capacity alarms.new }
{
    let Ok(()) = alarms.push(Reverse(alarm)) else {
        unreachable!();
    };
}

/// Drops stale alarms from the top.
pub fn drop_stale(alarms: &mut BinaryHeap<Reverse<Alarm>>, sleepers: &Slab<Sleeper>)
    requires { Covers sleepers.now.slots (heap_items alarms.old) }
    ensures covers { Covers sleepers.now.slots (heap_items alarms.new) }
    ensures top { IsOnTop sleepers.now.slots (heap_items alarms.new) }
    ensures len { heap_len alarms.new ≤ heap_len alarms.old }
    ensures capacity { heap_capacity alarms.new ≡ heap_capacity alarms.old }
{
    while let Some(top) = alarms.peek() {
        if is_live(sleepers, top.0) {
            return;
        }
        alarms.pop();
    }
}

/// Makes the heap anew where more than half of its alarms are stale. So there are hardly more than twice as many alarms as sleepers
/// when room is made for more.
pub fn make_compact(alarms: &mut BinaryHeap<Reverse<Alarm>>, sleepers: &Slab<Sleeper>)
    requires covers { Covers sleepers.now.slots (heap_items alarms.old) }
    requires top { IsOnTop sleepers.now.slots (heap_items alarms.old) }
    ensures covers { Covers sleepers.now.slots (heap_items alarms.new) }
    ensures top { IsOnTop sleepers.now.slots (heap_items alarms.new) }
    ensures few { heap_len alarms.new ≤ 2 * slab_len sleepers.now + 1 }
    ensures len { heap_len alarms.new ≤ heap_len alarms.old }
    ensures capacity { heap_capacity alarms.old ≤ heap_capacity alarms.new }
{
    if alarms.len() / 2 > sleepers.len() {
        rebuild(alarms, sleepers);
    }
}

// Puts one alarm for each sleeper into an empty heap.
fn rebuild(alarms: &mut BinaryHeap<Reverse<Alarm>>, sleepers: &Slab<Sleeper>)
    requires { slab_len sleepers.now ≤ heap_len alarms.old }
    ensures covers { Covers sleepers.now.slots (heap_items alarms.new) }
    ensures top { IsOnTop sleepers.now.slots (heap_items alarms.new) }
    ensures len { heap_len alarms.new ≡ slab_len sleepers.now }
    ensures capacity { heap_capacity alarms.old ≤ heap_capacity alarms.new }
{
    alarms.clear();
    for (key, sleeper) in sleepers.iter() {
        let alarm = Alarm {
            sleeper: *sleeper,
            key,
        };
        push_reserved(alarms, alarm);
    }
}

/// Takes out the sleeper that wakes first, where it is due.
pub fn take_due(
    alarms: &mut BinaryHeap<Reverse<Alarm>>,
    sleepers: &mut Slab<Sleeper>,
    now: u64,
) -> Option<Sleeper>
    requires covers { Covers sleepers.old.slots (heap_items alarms.old) }
    requires top { IsOnTop sleepers.old.slots (heap_items alarms.old) }
    ensures covers { Covers sleepers.new.slots (heap_items alarms.new) }
    ensures top { IsOnTop sleepers.new.slots (heap_items alarms.new) }
    ensures first { IfSome result (TakesFirst now sleepers.old.slots sleepers.new.slots) }
    ensures taken { OnSome result (slab_len sleepers.new < slab_len sleepers.old) }
    ensures none { IfNone result (NoneDue now sleepers.old.slots) }
    ensures unchanged { IfNone result (sleepers.new ≡ sleepers.old) }
    ensures len { heap_len alarms.new ≤ heap_len alarms.old }
    ensures capacity { heap_capacity alarms.new ≡ heap_capacity alarms.old }
    ensures slab_capacity { sleepers.new.capacity ≡ sleepers.old.capacity }
{
    let Reverse(alarm) = *alarms.peek()?;
    if now < alarm.sleeper.deadline {
        return None;
    }
    sleepers.remove(alarm.key);
    drop_stale(alarms, sleepers);
    Some(alarm.sleeper)
}
