//! The deques of the carriers, and what a carrier takes next.

ghost use Rattle.std.specs.Prelude.{◌≡◌, ◌↔◌, ◌+◌, ◌<◌, ◌≤◌, ◌==◌, ℕ, [], ◌∷◌, All, Some, drop, length, max, not, replicate, slice_get, take, IfOk, IsNone, OnOk};
ghost use Rattle.thread_lists.specs.Lists.{count, first, list_at, push, total};
ghost use Rattle.run_deques.specs.Take.{after_take, front, next};

use items::NoMemory;
use std::alloc::Global;
use std::marker::Model;
use thread_lists::ThreadLists;

/// One deque of threads for each carrier. A thread is in at most one deque, once.
#[derive(Drop)]
pub struct Deques {
    carriers: u32,
    lists: ThreadLists,
}

impl Model for Deques {
    ghost use Rattle.thread_lists.specs.Lists.{Lists};

    ghost Value = { Lists };

    ghost use Rattle.std.specs.Prelude.{◌≡◌, length};

    ghost view = { λ a. a.lists };

    ghost invariant = { λ a. a.carriers ≡ length a.lists.lists };
}

// The first thread of the first deque that isn't empty, of those from one number up to another.
fn front_between(lists: &ThreadLists, from: u32, to: u32) -> Option<(u32, u32)>
    requires { to ≤ length lists.now.lists }
    ensures { result ≡ front from (drop from (take to lists.now.lists)) }
{
    for k in from..to {
        if let Some(thread) = lists.first(k) {
            return Some((k, thread));
        }
    }
    None
}

impl Deques {
    /// An empty deque for each of this many carriers, and room for no thread.
    pub fn new(alloc: Global, carriers: u32) -> Result<Self, NoMemory>
        ensures { IfOk result
            (λ deques. deques ≡ record { lists = replicate carriers []; threads = 0 }) }
    {
        let mut lists = ThreadLists::new(alloc);
        lists.add_lists(carriers)?;
        Ok(Deques { carriers, lists })
    }

    /// Room for this many threads, so that those with smaller numbers can be put, or for as many as there is room for if these
    /// are more. After an error there may be room for more than before.
    pub fn room(&mut self, threads: u32) -> Result<(), NoMemory>
        ensures ok { OnOk result
            (self.new ≡ record self.old { threads = max self.old.threads threads }) }
        ensures lists { self.new.lists ≡ self.old.lists }
        ensures grows { self.old.threads ≤ self.new.threads }
    {
        self.lists.room(threads)
    }

    /// Puts a thread that is in no deque last in that of carrier c. This takes no memory.
    pub fn put(&mut self, c: u32, t: u32)
        requires carrier { c < length self.old.lists }
        requires room { t < self.old.threads }
        requires free { total (count t) self.old.lists ≡ 0 }
        ensures { self.new ≡ record self.old { lists = push self.old.lists c (t ∷ []) } }
    {
        self.lists.push(c, t);
    }

    /// What carrier c takes next: a deque and its first thread.
    pub fn next(&self, c: u32) -> Option<(u32, u32)>
        requires { c < length self.now.lists }
        ensures { result ≡ next self.now.lists c }
    {
        match front_between(&self.lists, c, self.carriers) {
            Some(found) => Some(found),
            None => front_between(&self.lists, 0, c),
        }
    }

    /// Takes out what carrier c takes next.
    pub fn take(&mut self, c: u32) -> Option<(u32, u32)>
        requires { c < length self.old.lists }
        ensures value { result ≡ next self.old.lists c }
        ensures none { IsNone result ↔ All (λ deque. deque ≡ []) self.old.lists }
        ensures leaves { self.new ≡ record self.old { lists = after_take self.old.lists result } }
    {
        let (deque, thread) = self.next(c)?;
        let _ = self.lists.take_first(deque);
        Some((deque, thread))
    }

    /// The first thread of a deque.
    pub fn first(&self, c: u32) -> Option<u32>
        requires { c < length self.now.lists }
        ensures { result ≡ first self.now.lists c }
    {
        self.lists.first(c)
    }

    /// The thread behind one in its deque, if there is one.
    pub fn behind(&self, t: u32) -> Option<u32>
        ensures { (c i : ℕ) → c < length self.now.lists
            → slice_get (list_at self.now.lists c) i ≡ Some t
            → result ≡ slice_get (list_at self.now.lists c) (i + 1) }
    {
        self.lists.behind(t)
    }

    /// Whether a thread is in a deque.
    pub fn holds(&self, t: u32) -> bool
        ensures { result ≡ not (total (count t) self.now.lists == 0) }
    {
        self.lists.holds(t)
    }

    /// Every call keeps this: a thread is in at most one deque, once, and there is room for each that is in one.
    pub fn once(&self)
        ensures once { (t : ℕ) → total (count t) self.now.lists ≤ 1 }
        ensures within { (t : ℕ) → self.now.threads ≤ t → total (count t) self.now.lists ≡ 0 }
    {
        self.lists.once();
    }
}
