//! Lists of threads, as a value that its callers hold.

ghost use Rattle.std.specs.Prelude.{◌≡◌, ◌≢◌, ◌+◌, ◌^◌, ◌<◌, ◌≤◌, ◌==◌, ℕ, [], ◌∷◌, ◌++◌, Some, length, max, not, replicate, slice_get, IfOk, OnOk, OnErr};
ghost use Rattle.thread_lists.specs.Lists.{append, count, drop_first, first, leave, list_at, push, total};

use crate::ring::{
    Link, Place, add_heads, count_of, is_linked, link_all, link_last, thread_at, thread_behind,
    threads_of, unlink,
};
use items::NoMemory;
use std::alloc::Global;
use std::marker::Model;

/// Lists of threads by number. A thread is in at most one list. Each call but `get`, `len` and `to_vec` takes the same time however
/// long the lists are, and none but `add_lists`, `add_thread` and `room` takes memory.
#[derive(Drop)]
pub struct ThreadLists {
    heads: Vec<Link>,
    threads: Vec<Link>,
}

impl Model for ThreadLists {
    ghost use Rattle.thread_lists.specs.Lists.{Lists};

    ghost Value = { Lists };

    ghost use Rattle.std.specs.Prelude.{vec_len};
    ghost use Rattle.thread_lists.specs.Ring.{IsLinked, spelled};

    ghost view = { λ a. record
        { lists = spelled a.heads.items a.threads.items; threads = vec_len a.threads } };

    ghost invariant = { λ a. IsLinked a.heads.items a.threads.items };
}

impl ThreadLists {
    /// No lists and no threads. This takes no memory.
    pub fn new(alloc: Global) -> Self
        ensures { result ≡ record { lists = []; threads = 0 } }
    {
        ThreadLists {
            heads: Vec::new(alloc),
            threads: Vec::new(alloc),
        }
    }

    /// More lists, all empty, numbered on from those there are. More than 2^32 lists are want of memory too.
    pub fn add_lists(&mut self, count: u32) -> Result<(), NoMemory>
        ensures ok { OnOk result
            (self.new ≡ record self.old { lists = self.old.lists ++ replicate count [] }) }
        ensures err { OnErr result (self.new ≡ self.old) }
    {
        add_heads(&mut self.heads, count)?;
        Ok(())
    }

    /// One more thread, which is in no list: its number. More than 2^32 - 1 threads are want of memory too.
    pub fn add_thread(&mut self) -> Result<u32, NoMemory>
        ensures number { IfOk result (λ thread. thread ≡ self.old.threads) }
        ensures ok { OnOk result (self.new ≡ record self.old { threads = self.old.threads + 1 }) }
        ensures err { OnErr result (self.new ≡ self.old) }
    {
        let thread = match u32::try_from(self.threads.len()) {
            Ok(thread) if thread < u32::MAX => thread,
            _ => return Err(NoMemory),
        };
        self.threads.push(Link::ring_of_one(Place::Thread(thread)))?;
        Ok(thread)
    }

    /// Room for this many threads, or for as many as there are if these are more. After an error there may be room for more
    /// than before.
    pub fn room(&mut self, threads: u32) -> Result<(), NoMemory>
        ensures ok { OnOk result
            (self.new ≡ record self.old { threads = max self.old.threads threads }) }
        ensures lists { self.new.lists ≡ self.old.lists }
        ensures grows { self.old.threads ≤ self.new.threads }
    {
        for _i in self.threads()..threads {
            self.add_thread()?;
        }
        Ok(())
    }

    /// How many threads there are: those with smaller numbers can be in lists.
    pub fn threads(&self) -> u32
        ensures { result ≡ self.now.threads }
    {
        self.threads.len() as u32
    }

    /// The lists keep this: a thread is in at most one of them, once, and it is a thread that there is.
    pub fn once(&self)
        ensures once { (t : ℕ) → total (count t) self.now.lists ≤ 1 }
        ensures within { (t : ℕ) → self.now.threads ≤ t → total (count t) self.now.lists ≡ 0 }
        ensures few { self.now.threads < 2 ^ 32 }
        ensures few_lists { length self.now.lists ≤ 2 ^ 32 }
    {
        let _ = &self.heads;
    }

    /// Whether a thread is in a list.
    pub fn holds(&self, thread: u32) -> bool
        ensures { result ≡ not (total (count thread) self.now.lists == 0) }
    {
        is_linked(&self.heads, &self.threads, thread)
    }

    /// The thread with this index in a list. This goes past the threads before it.
    pub fn get(&self, list: u32, index: u32) -> Option<u32>
        requires { list < length self.now.lists }
        ensures { result ≡ slice_get (list_at self.now.lists list) index }
    {
        thread_at(&self.heads, &self.threads, list, index)
    }

    /// The first thread of a list.
    pub fn first(&self, list: u32) -> Option<u32>
        requires { list < length self.now.lists }
        ensures { result ≡ first self.now.lists list }
    {
        self.get(list, 0)
    }

    /// The thread behind one in its list, if there is one.
    pub fn behind(&self, thread: u32) -> Option<u32>
        ensures { (k i : ℕ) → k < length self.now.lists
            → slice_get (list_at self.now.lists k) i ≡ Some thread
            → result ≡ slice_get (list_at self.now.lists k) (i + 1) }
    {
        thread_behind(&self.heads, &self.threads, thread)
    }

    /// How many threads a list has. This goes along the list.
    pub fn len(&self, list: u32) -> u32
        requires { list < length self.now.lists }
        ensures { result ≡ length (list_at self.now.lists list) }
    {
        count_of(&self.heads, &self.threads, list)
    }

    /// The threads of a list, in order. This goes along the list.
    pub fn to_vec(&self, alloc: Global, list: u32) -> Result<Vec<u32>, NoMemory>
        requires { list < length self.now.lists }
        ensures { IfOk result (λ v. v.items ≡ list_at self.now.lists list) }
    {
        Ok(threads_of(alloc, &self.heads, &self.threads, list)?)
    }

    /// Puts a thread that is in no list last in a list.
    pub fn push(&mut self, list: u32, thread: u32)
        requires list { list < length self.old.lists }
        requires thread { thread < self.old.threads }
        requires free { total (count thread) self.old.lists ≡ 0 }
        ensures { self.new ≡ record self.old { lists = push self.old.lists list (thread ∷ []) } }
    {
        link_last(&mut self.heads, &mut self.threads, list, thread);
    }

    /// Takes a thread out of its list.
    pub fn remove(&mut self, list: u32, thread: u32)
        requires list { list < length self.old.lists }
        requires held { 0 < count thread (list_at self.old.lists list) }
        ensures { self.new ≡ record self.old { lists = leave self.old.lists list thread } }
    {
        unlink(&mut self.heads, &mut self.threads, list, thread);
    }

    /// Takes the first thread out of a list.
    pub fn take_first(&mut self, list: u32) -> Option<u32>
        requires { list < length self.old.lists }
        ensures thread { result ≡ first self.old.lists list }
        ensures lists { self.new ≡ record self.old { lists = drop_first self.old.lists list } }
    {
        self.once();
        let thread = self.first(list)?;
        self.remove(list, thread);
        Some(thread)
    }

    /// Takes a thread out of one list and puts it last in another.
    pub fn move_last(&mut self, from: u32, to: u32, thread: u32)
        requires from { from < length self.old.lists }
        requires to { to < length self.old.lists }
        requires held { 0 < count thread (list_at self.old.lists from) }
        ensures { self.new ≡ record self.old
            { lists = push (leave self.old.lists from thread) to (thread ∷ []) } }
    {
        self.once();
        self.remove(from, thread);
        self.push(to, thread);
    }

    /// Puts all threads of one list, in their order, after the last of another.
    pub fn append(&mut self, from: u32, to: u32)
        requires from { from < length self.old.lists }
        requires to { to < length self.old.lists }
        requires differ { from ≢ to }
        ensures { self.new ≡ record self.old { lists = append self.old.lists from to } }
    {
        link_all(&mut self.heads, &mut self.threads, from, to);
    }
}
