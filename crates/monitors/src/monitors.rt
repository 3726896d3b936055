//! The monitors of objects and the calls that change one (JLS 17.1, 17.2).

ghost use Rattle.std.specs.Prelude.{◌≡◌, ◌≢◌, ◌↔◌, ◌<◌, ◌≤◌, ◌+◌, ◌^◌, ℕ, [], All, if◌then◌else◌, is_none, length, slice_get, IsFalse, IfOk, OnErr, OnOk};
ghost use Rattle.std.specs.Bool.{OnFalse, OnTrue};
ghost use Rattle.monitors.specs.Monitors.{Becomes, InNoList, IsByOwner, IsInLine, IsInUse, IsWaiting, after_enter, after_exit, after_leave_wait, after_line_up, after_notify, after_notify_all, after_retake, after_wait, is_taken, count_in, monitor_of, woken_by_exit};

use crate::records::{
    NotOwner, Record, add_pairs, drop_record, enter_record, find, find_owned, first_in_line,
    first_waiter, is_deserted, leave_record, put, take_pair,
};
use items::NoMemory;
use std::alloc::Global;
use std::collections::HashMap;
use std::marker::Model;
use thread_lists::ThreadLists;

/// What became of a thread that entered a monitor.
#[derive(Clone, Copy, Debug, PartialEq, Eq)]
pub enum Enter {
    /// The thread is the owner.
    Got,
    /// Another thread is, and this one is last in line.
    Blocked,
}

/// The monitor of each object, by its number. A thread is in at most one list of one monitor.
#[derive(Drop)]
pub struct Monitors {
    records: HashMap<u32, Record>,
    vacant: Vec<u32>,
    pairs: u32,
    lists: ThreadLists,
}

impl Model for Monitors {
    ghost use Rattle.monitors.specs.Monitors.{Monitors};

    ghost Value = { Monitors };

    ghost use Rattle.monitors.specs.Records.{IsConsistent, seen};

    ghost view = { seen };

    ghost invariant = { IsConsistent };
}

impl Monitors {
    /// No monitor in use, and no room. This takes no memory.
    pub fn new(alloc: Global) -> Self
        ensures { result ≡ record { used = []; threads = 0; spare = 0 } }
    {
        Monitors {
            records: HashMap::new(alloc),
            vacant: Vec::new(alloc),
            pairs: 0,
            lists: ThreadLists::new(alloc),
        }
    }

    /// Makes room for this many calls, which then need no memory. After an error there may be room for more than before.
    pub fn room(&mut self, calls: u32) -> Result<(), NoMemory>
        ensures ok { OnOk result (calls ≤ self.new.spare) }
        ensures monitors { (o : ℕ) → monitor_of self.new o ≡ monitor_of self.old o }
        ensures threads { self.new.threads ≡ self.old.threads }
        ensures spare { self.old.spare ≤ self.new.spare }
    {
        self.records.reserve(calls as usize)?;
        add_pairs(&mut self.vacant, &mut self.pairs, &mut self.lists, calls)
    }

    /// One more thread that may use monitors: its number. More than 2^32 - 1 threads are want of memory too.
    pub fn add_thread(&mut self) -> Result<u32, NoMemory>
        ensures number { IfOk result (λ thread. thread ≡ self.old.threads) }
        ensures ok { OnOk result (self.new ≡ record self.old { threads = self.old.threads + 1 }) }
        ensures err { OnErr result (self.new ≡ self.old) }
    {
        self.lists.add_thread()
    }

    /// Every call keeps this: a thread is in at most one list of one monitor, once; a monitor without an owner has the count 0;
    /// and no monitor that is free is kept.
    pub fn once(&self)
        ensures once { (t o : ℕ) → count_in t (monitor_of self.now o) ≤ 1 }
        ensures apart { (t o p : ℕ) → o ≢ p
            → count_in t (monitor_of self.now o) + count_in t (monitor_of self.now p) ≤ 1 }
        ensures unowned { (o : ℕ) → (monitor_of self.now o).owner ≡ None
            → (monitor_of self.now o).count ≡ 0 }
        ensures used { All (λ entry. IsInUse entry.1) self.now.used }
    {
        self.lists.once();
        let _ = self.records.len();
    }

    /// Whether a thread is in a list of a monitor.
    pub fn holds(&self, t: u32) -> bool
        ensures { IsFalse result ↔ InNoList self.now t }
    {
        self.lists.holds(t)
    }

    /// The owner of a monitor.
    pub fn owner(&self, o: u32) -> Option<u32>
        ensures { result ≡ (monitor_of self.now o).owner }
    {
        match find(&self.records, o) {
            Some(kept) => kept.owner(),
            None => None,
        }
    }

    /// How often the owner of a monitor entered it, 0 where it has none.
    pub fn count(&self, o: u32) -> u32
        ensures { result ≡ (monitor_of self.now o).count }
    {
        match find(&self.records, o) {
            Some(kept) => kept.count(),
            None => 0,
        }
    }

    /// The thread with this index in the wait list of a monitor. This goes past the threads before it.
    pub fn waiter(&self, o: u32, i: u32) -> Option<u32>
        ensures { result ≡ slice_get (monitor_of self.now o).wait_list i }
    {
        self.lists.once();
        match find(&self.records, o) {
            Some(kept) => self.lists.get(kept.wait_list(), i),
            None => None,
        }
    }

    /// A thread takes a monitor that it owns or nobody does, or else waits to take it (JLS 17.1).
    pub fn enter(&mut self, o: u32, t: u32) -> Enter
        requires spare { 0 < self.old.spare }
        requires thread { t < self.old.threads }
        requires free { InNoList self.old t }
        requires count { (monitor_of self.old o).count + 1 < 2 ^ 32 }
        ensures entered { result ≡
            (if is_taken (monitor_of self.old o).owner t then Enter.Blocked else Enter.Got) }
        ensures monitor { Becomes self.old self.new o (after_enter t (monitor_of self.old o)) }
    {
        self.lists.once();
        let Some(kept) = enter_record(&mut self.records, &mut self.vacant, o, t) else {
            return Enter::Got;
        };
        if kept.is_taken(t) {
            self.lists.push(kept.entry_list(), t);
            return Enter::Blocked;
        }
        Enter::Got
    }

    /// A thread comes last in line for a monitor.
    pub fn line_up(&mut self, o: u32, t: u32)
        requires spare { 0 < self.old.spare }
        requires thread { t < self.old.threads }
        requires free { InNoList self.old t }
        ensures { Becomes self.old self.new o (after_line_up t (monitor_of self.old o)) }
    {
        self.lists.once();
        let Some(kept) = find(&self.records, o) else {
            let pair = take_pair(&mut self.vacant);
            let new = Record { owner: None, pair };
            self.lists.push(new.entry_list(), t);
            put(&mut self.records, o, new);
            return;
        };
        self.lists.push(kept.entry_list(), t);
    }

    /// A thread that is in line takes the monitor, which it had entered so often, where that has no owner. Else this answers
    /// false, and nothing changes.
    pub fn retake(&mut self, o: u32, t: u32, count: u32) -> bool
        requires { IsInLine t (monitor_of self.old o) }
        ensures taken { result ≡ is_none (monitor_of self.old o).owner }
        ensures yes { OnTrue result
            (Becomes self.old self.new o (after_retake t count (monitor_of self.old o))) }
        ensures no { OnFalse result (self.new ≡ self.old) }
    {
        self.lists.once();
        let Some(kept) = find(&self.records, o) else {
            unreachable!()
        };
        let taken = kept.owner.is_some();
        if taken {
            return false;
        }
        self.lists.remove(kept.entry_list(), t);
        put(&mut self.records, o, kept.owned_by(t, count));
        true
    }

    /// The owner leaves a monitor once. The answer is the thread to be woken: where the monitor has no owner then, the first
    /// in line.
    pub fn exit(&mut self, o: u32, t: u32) -> Result<Option<u32>, NotOwner>
        ensures owner { IsByOwner result (monitor_of self.old o).owner t }
        ensures woken { IfOk result (λ thread. thread ≡ woken_by_exit (monitor_of self.old o)) }
        ensures ok { OnOk result
            (Becomes self.old self.new o (after_exit (monitor_of self.old o))) }
        ensures err { OnErr result (self.new ≡ self.old) }
    {
        self.lists.once();
        let kept = leave_record(&mut self.records, o, t)?;
        if kept.count() > 1 {
            return Ok(None);
        }
        if is_deserted(&self.lists, kept) {
            drop_record(&mut self.records, o);
            self.vacant.push_reserved(kept.pair);
            return Ok(None);
        }
        Ok(first_in_line(&self.lists, kept))
    }

    /// The owner leaves a monitor wholly and waits to be notified (JLS 17.2.1). The answer is how often it had entered the
    /// monitor, and the thread to be woken: the first in line.
    pub fn wait(&mut self, o: u32, t: u32) -> Result<(u32, Option<u32>), NotOwner>
        requires thread { t < self.old.threads }
        requires free { InNoList self.old t }
        ensures owner { IsByOwner result (monitor_of self.old o).owner t }
        ensures count { IfOk result (λ left. left.0 ≡ (monitor_of self.old o).count) }
        ensures woken { IfOk result (λ left.
            left.1 ≡ slice_get (monitor_of self.old o).entry_list 0) }
        ensures ok { OnOk result
            (Becomes self.old self.new o (after_wait t (monitor_of self.old o))) }
        ensures err { OnErr result (self.new ≡ self.old) }
    {
        self.lists.once();
        let kept = find_owned(&self.records, o, t)?;
        let next = first_in_line(&self.lists, kept);
        self.lists.push(kept.wait_list(), t);
        put(&mut self.records, o, kept.without_owner());
        Ok((kept.count(), next))
    }

    /// The owner lets the first thread that waits to be notified line up for the monitor (JLS 17.2.2): that thread.
    pub fn notify(&mut self, o: u32, t: u32) -> Result<Option<u32>, NotOwner>
        ensures owner { IsByOwner result (monitor_of self.old o).owner t }
        ensures moved { IfOk result (λ thread.
            thread ≡ slice_get (monitor_of self.old o).wait_list 0) }
        ensures ok { OnOk result
            (Becomes self.old self.new o (after_notify (monitor_of self.old o))) }
        ensures err { OnErr result (self.new ≡ self.old) }
        ensures spare { self.new.spare ≡ self.old.spare }
    {
        self.lists.once();
        let kept = find_owned(&self.records, o, t)?;
        let Some(waiter) = first_waiter(&self.lists, kept) else {
            return Ok(None);
        };
        self.lists
            .move_last(kept.wait_list(), kept.entry_list(), waiter);
        Ok(Some(waiter))
    }

    /// The owner lets all threads that wait to be notified line up for the monitor, in their order (JLS 17.2.2): how many.
    pub fn notify_all(&mut self, o: u32, t: u32) -> Result<u32, NotOwner>
        ensures owner { IsByOwner result (monitor_of self.old o).owner t }
        ensures moved { IfOk result (λ count. count ≡ length (monitor_of self.old o).wait_list) }
        ensures ok { OnOk result
            (Becomes self.old self.new o (after_notify_all (monitor_of self.old o))) }
        ensures err { OnErr result (self.new ≡ self.old) }
    {
        self.lists.once();
        let kept = find_owned(&self.records, o, t)?;
        let count = self.lists.len(kept.wait_list());
        self.lists.append(kept.wait_list(), kept.entry_list());
        Ok(count)
    }

    /// A thread that waits to be notified lines up for the monitor.
    pub fn leave_wait(&mut self, o: u32, t: u32)
        requires { IsWaiting t (monitor_of self.old o) }
        ensures { Becomes self.old self.new o (after_leave_wait t (monitor_of self.old o)) }
    {
        self.lists.once();
        let Some(kept) = find(&self.records, o) else {
            unreachable!()
        };
        self.lists.move_last(kept.wait_list(), kept.entry_list(), t);
    }
}
