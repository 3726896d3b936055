//! Rings of linked places, one for each list: a head and the threads of the list.

ghost use Rattle.std.specs.Prelude.{◌≡◌, ◌≢◌, ◌+◌, ◌<◌, ◌==◌, ℕ, List, [], ◌∷◌, ◌++◌, Some, length, not, replicate, slice_get, slice_set, IfOk, OnErr, OnOk};
ghost use Rattle.thread_lists.specs.declared.ring.Link.{Link};
ghost use Rattle.thread_lists.specs.Lists.{append, count, leave, list_at, push, total};
ghost use Rattle.thread_lists.specs.Ring.{IsLinked, IsPlace, Joined, SetsNext, SetsPrevious, Spells, link_of, spelled};

use items::NoMemory;
use std::alloc::{AllocError, Global};

/// The lists have numbers of 32 bits.
const MOST_LISTS: usize = 1 << 32;

/// A place of a ring. After a head comes the first thread of its list, and before it the last.
#[derive(Clone, Copy)]
pub enum Place {
    Head(u32),
    Thread(u32),
}

/// The neighbours of a place. Those of a thread that is in no list are the thread itself.
#[derive(Clone, Copy)]
pub struct Link {
    pub next: Place,
    pub previous: Place,
}

impl Link {
    /// A ring of one place.
    pub fn ring_of_one(place: Place) -> Self
        ensures { result ≡ record { next = place; previous = place } }
    {
        Link {
            next: place,
            previous: place,
        }
    }
}

// The neighbours of a place.
fn link_at(heads: &[Link], threads: &[Link], place: Place) -> Link
    requires { IsPlace heads.now threads.now place }
    ensures { result ≡ link_of heads.now threads.now place }
{
    match place {
        Place::Head(k) => heads[k as usize],
        Place::Thread(t) => threads[t as usize],
    }
}

// Makes `place` lead to `to`.
fn set_next(heads: &mut [Link], threads: &mut [Link], place: Place, to: Place)
    requires { IsPlace heads.old threads.old place }
    ensures { SetsNext heads.old threads.old heads.new threads.new place to }
{
    match place {
        Place::Head(k) => heads[k as usize].next = to,
        Place::Thread(t) => threads[t as usize].next = to,
    }
}

// Makes `place` lead back to `to`.
fn set_previous(heads: &mut [Link], threads: &mut [Link], place: Place, to: Place)
    requires { IsPlace heads.old threads.old place }
    ensures { SetsPrevious heads.old threads.old heads.new threads.new place to }
{
    match place {
        Place::Head(k) => heads[k as usize].previous = to,
        Place::Thread(t) => threads[t as usize].previous = to,
    }
}

/// Makes b follow a.
pub fn join(heads: &mut [Link], threads: &mut [Link], a: Place, b: Place)
    requires first { IsPlace heads.old threads.old a }
    requires second { IsPlace heads.old threads.old b }
    ensures { Joined heads.old threads.old heads.new threads.new a b }
{
    set_next(heads, threads, a, b);
    set_previous(heads, threads, b, a);
}

/// More heads of lists, each a ring of one place. After an error nothing changed.
pub fn add_heads(heads: &mut Vec<Link>, count: u32) -> Result<(), NoMemory>
    ensures ok { OnOk result ((threads : List Link) (lists : List (List ℕ))
        → Spells heads.old.items threads lists
        → Spells heads.new.items threads (lists ++ replicate count [])) }
    ensures err { OnErr result (heads.new.items ≡ heads.old.items) }
{
    let first = heads.len();
    if first > MOST_LISTS - count as usize {
        return Err(NoMemory);
    }
    heads.reserve(count as usize)?;
    for list in first..first + count as usize {
        heads.push_reserved(Link::ring_of_one(Place::Head(list as u32)));
    }
    Ok(())
}

/// Puts a thread that is in no list after the last of a list.
pub fn link_last(heads: &mut [Link], threads: &mut [Link], list: u32, thread: u32)
    requires linked { IsLinked heads.old threads.old }
    requires list { list < length heads.old }
    requires thread { thread < length threads.old }
    requires free { total (count thread) (spelled heads.old threads.old) ≡ 0 }
    ensures { Spells heads.new threads.new
        (push (spelled heads.old threads.old) list (thread ∷ [])) }
{
    let last = link_at(heads, threads, Place::Head(list)).previous;
    join(heads, threads, last, Place::Thread(thread));
    join(heads, threads, Place::Thread(thread), Place::Head(list));
}

/// Takes a thread out of the list that it is in.
pub fn unlink(heads: &mut [Link], threads: &mut [Link], list: u32, thread: u32)
    requires linked { IsLinked heads.old threads.old }
    requires list { list < length heads.old }
    requires held { 0 < count thread (list_at (spelled heads.old threads.old) list) }
    ensures { Spells heads.new threads.new (leave (spelled heads.old threads.old) list thread) }
{
    let link = link_at(heads, threads, Place::Thread(thread));
    join(heads, threads, link.previous, link.next);
    join(heads, threads, Place::Thread(thread), Place::Thread(thread));
}

/// Puts all threads of one list, in their order, after the last of another.
pub fn link_all(heads: &mut [Link], threads: &mut [Link], from: u32, to: u32)
    requires linked { IsLinked heads.old threads.old }
    requires from { from < length heads.old }
    requires to { to < length heads.old }
    requires differ { from ≢ to }
    ensures { Spells heads.new threads.new (append (spelled heads.old threads.old) from to) }
{
    let moved = link_at(heads, threads, Place::Head(from));
    if let Place::Head(_) = moved.next {
        return;
    }
    let last = link_at(heads, threads, Place::Head(to)).previous;
    join(heads, threads, last, moved.next);
    join(heads, threads, moved.previous, Place::Head(to));
    join(heads, threads, Place::Head(from), Place::Head(from));
}

/// The thread with this index in a list.
pub fn thread_at(heads: &[Link], threads: &[Link], list: u32, index: u32) -> Option<u32>
    requires linked { IsLinked heads.now threads.now }
    requires list { list < length heads.now }
    ensures { result ≡ slice_get (list_at (spelled heads.now threads.now) list) index }
{
    let mut place = link_at(heads, threads, Place::Head(list)).next;
    for _i in 0..index {
        match place {
            Place::Thread(_) => place = link_at(heads, threads, place).next,
            Place::Head(_) => return None,
        }
    }
    match place {
        Place::Thread(thread) => Some(thread),
        Place::Head(_) => None,
    }
}

/// The thread behind one in its list, if there is one.
pub fn thread_behind(heads: &[Link], threads: &[Link], thread: u32) -> Option<u32>
    requires { IsLinked heads.now threads.now }
    ensures { (k i : ℕ) → k < length heads.now
        → slice_get (list_at (spelled heads.now threads.now) k) i ≡ Some thread
        → result ≡ slice_get (list_at (spelled heads.now threads.now) k) (i + 1) }
{
    if thread as usize >= threads.len() {
        return None;
    }
    match link_at(heads, threads, Place::Thread(thread)).next {
        Place::Thread(next) => Some(next),
        Place::Head(_) => None,
    }
}

/// How many threads a list has.
pub fn count_of(heads: &[Link], threads: &[Link], list: u32) -> u32
    requires linked { IsLinked heads.now threads.now }
    requires list { list < length heads.now }
    ensures { result ≡ length (list_at (spelled heads.now threads.now) list) }
{
    let mut count = 0;
    let mut place = link_at(heads, threads, Place::Head(list)).next;
    while let Place::Thread(_) = place {
        place = link_at(heads, threads, place).next;
        count += 1;
    }
    count
}

/// The threads of a list, in order.
pub fn threads_of(
    alloc: Global,
    heads: &[Link],
    threads: &[Link],
    list: u32,
) -> Result<Vec<u32>, AllocError>
    requires linked { IsLinked heads.now threads.now }
    requires list { list < length heads.now }
    ensures { IfOk result (λ v. v.items ≡ list_at (spelled heads.now threads.now) list) }
{
    let mut found = Vec::new(alloc);
    let mut place = link_at(heads, threads, Place::Head(list)).next;
    while let Place::Thread(thread) = place {
        found.push(thread)?;
        place = link_at(heads, threads, place).next;
    }
    Ok(found)
}

/// Whether a thread is in a list.
pub fn is_linked(heads: &[Link], threads: &[Link], thread: u32) -> bool
    requires { IsLinked heads.now threads.now }
    ensures { result ≡ not (total (count thread) (spelled heads.now threads.now) == 0) }
{
    if thread as usize >= threads.len() {
        return false;
    }
    match link_at(heads, threads, Place::Thread(thread)).next {
        Place::Thread(next) => next != thread,
        Place::Head(_) => true,
    }
}
