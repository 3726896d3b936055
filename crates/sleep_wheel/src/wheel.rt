//! A wheel of sleepers, and the calls that change it.

ghost use Rattle.std.specs.Prelude.{◌≡◌, ◌↔◌, ◌<◌, ◌≤◌, ◌+◌, ℕ, [], None, Some, IsSome, IsNone, is_some, IfSome, IfOk, OnOk, OnErr};
ghost use Rattle.sleep_wheel.specs.Sleepers.{sleeper_at, unless_due, sleepers_of, Changes, IsEarliest, IsDueList};

use crate::alarms::{Alarm, drop_stale, make_compact, push_reserved, take_due};
use crate::sleeper::{Key, Sleeper};
use items::NoMemory;
use slab::Slab;
use std::alloc::Global;
use std::cmp::Reverse;
use std::collections::BinaryHeap;
use std::marker::Model;

/// The threads that sleep until a deadline, each under a key.
#[derive(Drop)]
pub struct Wheel {
    alloc: Global,
    sleepers: Slab<Sleeper>,
    alarms: BinaryHeap<Reverse<Alarm>>,
}

impl Model for Wheel {
    ghost use Rattle.sleep_wheel.specs.Sleepers.{Sleepers};

    ghost Value = { Sleepers };

    ghost use Rattle.sleep_wheel.specs.Wheel.{wheel_view, IsWheel};

    ghost view = { wheel_view };

    ghost invariant = { IsWheel };
}

impl Wheel {
    /// No sleepers.
    pub fn new(alloc: Global) -> Result<Self, NoMemory>
        ensures { IfOk result (λ wheel. wheel.slots ≡ []) }
    {
        Ok(Wheel {
            alloc,
            sleepers: Slab::new(alloc),
            alarms: BinaryHeap::new(alloc),
        })
    }

    /// Makes room for that many more sleepers, and leaves those that there are as they are.
    pub fn room(&mut self, n: u32) -> Result<(), NoMemory>
        ensures room { OnOk result (n ≤ self.new.spare) }
        ensures sleepers { self.new.slots ≡ self.old.slots }
        ensures spare { self.old.spare ≤ self.new.spare }
    {
        make_compact(&mut self.alarms, &self.sleepers);
        self.sleepers.reserve(n as usize)?;
        self.alarms.reserve(n as usize)?;
        Ok(())
    }

    /// Adds a sleeper, under a key that no other has. This takes no memory.
    pub fn add(&mut self, thread: u32, deadline: u64) -> Key
        requires { 0 < self.old.spare }
        ensures vacant { sleeper_at self.old result.number ≡ None }
        ensures sleepers { Changes self.old self.new result.number
            (Some (record { deadline = deadline; thread = thread })) }
        ensures spare { self.old.spare ≤ self.new.spare + 1 }
    {
        let sleeper = Sleeper { deadline, thread };
        let key = self.sleepers.insert_reserved(sleeper);
        push_reserved(&mut self.alarms, Alarm { sleeper, key });
        drop_stale(&mut self.alarms, &self.sleepers);
        Key { number: key }
    }

    /// Whether a key has a sleeper.
    pub fn holds(&self, key: Key) -> bool
        ensures { result ≡ is_some (sleeper_at self.now key.number) }
    {
        self.sleepers.contains(key.number)
    }

    /// Takes out the sleeper of a key. All other keys stay right. This takes no memory.
    pub fn remove(&mut self, key: Key)
        requires { IsSome (sleeper_at self.old key.number) }
        ensures sleepers { Changes self.old self.new key.number None }
        ensures spare { self.old.spare ≤ self.new.spare }
    {
        self.sleepers.remove(key.number);
        drop_stale(&mut self.alarms, &self.sleepers);
    }

    /// Takes out all sleepers whose deadline is at most `now`, and answers their threads in the order of the deadlines, and of the
    /// threads at one deadline. Where memory runs out nothing changes.
    pub fn due(&mut self, now: u64) -> Result<Vec<u32>, NoMemory>
        ensures due { IfOk result (λ v. IsDueList now (sleepers_of self.old) v.items) }
        ensures left { OnOk result ((key : ℕ) →
            sleeper_at self.new key ≡ unless_due now (sleeper_at self.old key)) }
        ensures err { OnErr result (self.new ≡ self.old) }
        ensures spare { self.old.spare ≤ self.new.spare }
    {
        let mut threads = Vec::with_capacity(self.alloc, self.sleepers.len())?;
        while let Some(sleeper) = take_due(&mut self.alarms, &mut self.sleepers, now) {
            threads.push_reserved(sleeper.thread);
        }
        Ok(threads)
    }

    /// The least deadline. This takes no memory.
    #[inline(always)]
    pub fn earliest(&self) -> Option<u64>
        ensures none { IsNone result ↔ ((key : ℕ) → sleeper_at self.now key ≡ None) }
        ensures least { IfSome result (IsEarliest self.now) }
    {
        let top = self.alarms.peek()?;
        Some(top.0.sleeper.deadline)
    }
}
