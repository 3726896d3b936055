//! The records of the monitors in use, and the pairs of lists of threads that they have.

ghost use Rattle.std.specs.Prelude.{◌≡◌, ◌≢◌, ◌+◌, ◌*◌, ◌<◌, ◌≤◌, ◌^◌, ◌&&◌, ℕ, None, Some, [], ◌∷◌, ◌++◌, if◌then◌else◌, is_some, length, nat_eq, not, vec_len, IfErr, IfNone, IfOk, IfSome, OnErr, OnOk};
ghost use Rattle.std.specs.HashMap.{get, hash_map_len, spare};
ghost use Rattle.std.specs.Option.{option_and_then, option_map_or};
ghost use Rattle.std.specs.Vec.{vec_capacity};
ghost use Rattle.thread_lists.specs.Lists.{first, list_at};
ghost use Rattle.monitors.specs.Monitors.{is_empty, is_taken};
ghost use Rattle.monitors.specs.Records.{Grows, OpensPair, count_of, entered, entry_list_of, left, thread_of, wait_list_of};

use items::NoMemory;
use std::collections::HashMap;
use std::collections::hash_map::Entry;
use thiserror::Error;
use thread_lists::ThreadLists;

/// The thread isn't the owner of the monitor.
#[derive(Clone, Copy, Debug, PartialEq, Eq, Error)]
#[error("not the owner")]
pub struct NotOwner {
    pub owner: Option<u32>,
}

/// Who owns a monitor, and how often that thread entered it.
#[derive(Clone, Copy)]
pub struct Owner {
    pub thread: u32,
    pub count: u32,
}

/// A monitor in use: its owner, and the number of its pair of lists of threads.
#[derive(Clone, Copy)]
pub struct Record {
    pub owner: Option<Owner>,
    pub pair: u32,
}

impl Record {
    /// The list of the threads that wait to take the monitor.
    pub fn entry_list(self) -> u32
        requires { wait_list_of self.pair < 2 ^ 32 }
        ensures { result ≡ entry_list_of self.pair }
    {
        2 * self.pair
    }

    /// The list of the threads that wait to be notified.
    pub fn wait_list(self) -> u32
        requires { wait_list_of self.pair < 2 ^ 32 }
        ensures { result ≡ wait_list_of self.pair }
    {
        2 * self.pair + 1
    }

    /// The owner.
    pub fn owner(self) -> Option<u32>
        ensures { result ≡ thread_of self.owner }
    {
        match self.owner {
            Some(owner) => Some(owner.thread),
            None => None,
        }
    }

    /// How often the owner entered the monitor.
    pub fn count(self) -> u32
        ensures { result ≡ count_of self.owner }
    {
        match self.owner {
            Some(owner) => owner.count,
            None => 0,
        }
    }

    /// Whether another thread than this is the owner.
    pub fn is_taken(self, thread: u32) -> bool
        ensures { result ≡ is_taken (thread_of self.owner) thread }
    {
        match self.owner {
            Some(owner) => owner.thread != thread,
            None => false,
        }
    }

    /// The same with this owner, which entered the monitor so often.
    pub fn owned_by(self, thread: u32, count: u32) -> Self
        ensures { result ≡
            record self { owner = Some (record { thread = thread; count = count }) } }
    {
        Record {
            owner: Some(Owner { thread, count }),
            pair: self.pair,
        }
    }

    /// The same after this thread enters the monitor, which stays as it is where another is the owner.
    pub fn entered_by(self, thread: u32) -> Self
        requires { count_of self.owner + 1 < 2 ^ 32 }
        ensures { result ≡ entered thread self }
    {
        if self.is_taken(thread) {
            return self;
        }
        self.owned_by(thread, self.count() + 1)
    }

    /// The same after its owner leaves the monitor once.
    pub fn left(self) -> Self
        ensures { result ≡ left self }
    {
        let count = self.count().saturating_sub(1);
        match self.owner {
            Some(owner) if count > 0 => self.owned_by(owner.thread, count),
            _ => self.without_owner(),
        }
    }

    /// The same without an owner.
    pub fn without_owner(self) -> Self
        ensures { result ≡ record self { owner = None } }
    {
        Record {
            owner: None,
            pair: self.pair,
        }
    }
}

/// The first thread that waits to take a monitor.
pub fn first_in_line(lists: &ThreadLists, kept: Record) -> Option<u32>
    requires inside { wait_list_of kept.pair < length lists.now.lists }
    requires fits { wait_list_of kept.pair < 2 ^ 32 }
    ensures { result ≡ first lists.now.lists (entry_list_of kept.pair) }
{
    lists.first(kept.entry_list())
}

/// The first thread that waits to be notified.
pub fn first_waiter(lists: &ThreadLists, kept: Record) -> Option<u32>
    requires inside { wait_list_of kept.pair < length lists.now.lists }
    requires fits { wait_list_of kept.pair < 2 ^ 32 }
    ensures { result ≡ first lists.now.lists (wait_list_of kept.pair) }
{
    lists.first(kept.wait_list())
}

/// Whether no thread is in a list of a monitor.
pub fn is_deserted(lists: &ThreadLists, kept: Record) -> bool
    requires inside { wait_list_of kept.pair < length lists.now.lists }
    requires fits { wait_list_of kept.pair < 2 ^ 32 }
    ensures { result ≡ (is_empty (list_at lists.now.lists (entry_list_of kept.pair))
        && is_empty (list_at lists.now.lists (wait_list_of kept.pair))) }
{
    first_in_line(lists, kept).is_none() && first_waiter(lists, kept).is_none()
}

/// The record of an object's monitor, where that is in use.
pub fn find(records: &HashMap<u32, Record>, o: u32) -> Option<Record>
    ensures { result ≡ get nat_eq records.now o }
{
    records.get(&o).copied()
}

/// The record of an object's monitor, where this thread is the owner.
pub fn find_owned(records: &HashMap<u32, Record>, o: u32, thread: u32) -> Result<Record, NotOwner>
    ensures found { IfOk result (λ kept. get nat_eq records.now o ≡ Some kept) }
    ensures owner { IfOk result (λ kept. thread_of kept.owner ≡ Some thread) }
    ensures other { IfErr result (λ refusal. refusal.owner ≢ Some thread) }
    ensures refused { IfErr result (λ refusal.
        refusal.owner ≡ option_and_then (λ kept. thread_of kept.owner) (get nat_eq records.now o)) }
{
    let Some(kept) = find(records, o) else {
        return Err(NotOwner { owner: None });
    };
    match kept.owner() {
        Some(owner) if owner == thread => Ok(kept),
        owner => Err(NotOwner { owner }),
    }
}

/// The owner of an object's monitor leaves it once. The answer is its record before. This looks the object up once.
pub fn leave_record(
    records: &mut HashMap<u32, Record>,
    o: u32,
    thread: u32,
) -> Result<Record, NotOwner>
    ensures found { IfOk result (λ kept. get nat_eq records.old o ≡ Some kept) }
    ensures owner { IfOk result (λ kept. thread_of kept.owner ≡ Some thread) }
    ensures now { IfOk result (λ kept. get nat_eq records.new o ≡ Some (left kept)) }
    ensures others { OnOk result
        ((p : ℕ) → p ≢ o → get nat_eq records.new p ≡ get nat_eq records.old p) }
    ensures len { hash_map_len records.new ≡ hash_map_len records.old }
    ensures spare { spare records.new ≡ spare records.old }
    ensures other { IfErr result (λ refusal. refusal.owner ≢ Some thread) }
    ensures refused { IfErr result (λ refusal. refusal.owner ≡
        option_and_then (λ kept. thread_of kept.owner) (get nat_eq records.old o)) }
    ensures err { OnErr result (records.new.entries ≡ records.old.entries) }
{
    let Some(place) = records.get_mut(&o) else {
        return Err(NotOwner { owner: None });
    };
    let kept = *place;
    match kept.owner() {
        Some(owner) if owner == thread => {
            *place = kept.left();
            Ok(kept)
        }
        owner => Err(NotOwner { owner }),
    }
}

/// Sets the record of an object's monitor. A new one needs room.
pub fn put(records: &mut HashMap<u32, Record>, o: u32, new: Record)
    requires { get nat_eq records.old o ≡ None → 0 < spare records.old }
    ensures now { get nat_eq records.new o ≡ Some new }
    ensures others { (p : ℕ) → p ≢ o → get nat_eq records.new p ≡ get nat_eq records.old p }
    ensures len { hash_map_len records.new ≡
        hash_map_len records.old + (if is_some (get nat_eq records.old o) then 0 else 1) }
    ensures spare { spare records.old ≤ spare records.new + 1 }
{
    let Ok(_) = records.insert(o, new) else {
        unreachable!()
    };
}

/// Drops the record of an object's monitor.
pub fn drop_record(records: &mut HashMap<u32, Record>, o: u32)
    ensures now { get nat_eq records.new o ≡ None }
    ensures others { (p : ℕ) → p ≢ o → get nat_eq records.new p ≡ get nat_eq records.old p }
    ensures len { hash_map_len records.new + (if is_some (get nat_eq records.old o) then 1 else 0)
        ≡ hash_map_len records.old }
    ensures spare { spare records.old ≤ spare records.new }
{
    let _ = records.remove(&o);
}

/// A thread enters an object's monitor, which takes a vacant pair of lists where it wasn't in use. The answer is its record
/// before. This looks the object up once.
pub fn enter_record(
    records: &mut HashMap<u32, Record>,
    vacant: &mut Vec<u32>,
    o: u32,
    thread: u32,
) -> Option<Record>
    requires spare { get nat_eq records.old o ≡ None → 0 < spare records.old }
    requires vacant { 0 < vec_len vacant.old }
    requires count { IfSome (get nat_eq records.old o) (λ kept. count_of kept.owner + 1 < 2 ^ 32) }
    ensures was { result ≡ get nat_eq records.old o }
    ensures opened { IfNone result
        (OpensPair (get nat_eq records.new o) thread vacant.old vacant.new) }
    ensures now { IfSome result (λ kept. get nat_eq records.new o ≡ Some (entered thread kept)) }
    ensures vacant { IfSome result (λ kept. vacant.new ≡ vacant.old) }
    ensures others { (p : ℕ) → p ≢ o → get nat_eq records.new p ≡ get nat_eq records.old p }
    ensures len { hash_map_len records.new ≡
        hash_map_len records.old + (if is_some (get nat_eq records.old o) then 0 else 1) }
    ensures spare { spare records.old ≤ spare records.new + 1 }
{
    match records.entry(o) {
        Ok(Entry::Occupied(mut place)) => {
            let kept = *place.get();
            let _ = place.insert(kept.entered_by(thread));
            Some(kept)
        }
        Ok(Entry::Vacant(place)) => {
            let pair = take_pair(vacant);
            let _ = place.insert(Record { owner: None, pair }.owned_by(thread, 1));
            None
        }
        Err(_) => unreachable!(),
    }
}

/// Takes a vacant pair of lists.
pub fn take_pair(vacant: &mut Vec<u32>) -> u32
    requires { 0 < vec_len vacant.old }
    ensures items { vacant.old.items ≡ vacant.new.items ++ result ∷ [] }
    ensures len { vec_len vacant.old ≡ vec_len vacant.new + 1 }
    ensures capacity { vec_capacity vacant.new ≡ vec_capacity vacant.old }
{
    let Some(pair) = vacant.pop() else {
        unreachable!()
    };
    pair
}

// Makes one more pair of lists, which is vacant. After an error there are as many as before.
fn add_pair(vacant: &mut Vec<u32>, pairs: &mut u32, lists: &mut ThreadLists) -> Result<(), NoMemory>
    requires pairs { 2 * pairs.old ≡ length lists.old.lists }
    requires capacity { pairs.old ≤ vec_capacity vacant.old }
    ensures grows { Grows vacant.old pairs.old lists.old vacant.new pairs.new lists.new }
    ensures ok { OnOk result (vec_len vacant.new ≡ vec_len vacant.old + 1) }
{
    lists.once();
    let most = vacant.len().max(*pairs as usize);
    vacant.reserve(most + 1 - vacant.len())?;
    lists.add_lists(2)?;
    vacant.push_reserved(*pairs);
    *pairs += 1;
    Ok(())
}

/// Makes pairs of lists until this many are vacant. After an error there may be more than before.
pub fn add_pairs(
    vacant: &mut Vec<u32>,
    pairs: &mut u32,
    lists: &mut ThreadLists,
    count: u32,
) -> Result<(), NoMemory>
    requires pairs { 2 * pairs.old ≡ length lists.old.lists }
    requires capacity { pairs.old ≤ vec_capacity vacant.old }
    ensures grows { Grows vacant.old pairs.old lists.old vacant.new pairs.new lists.new }
    ensures ok { OnOk result (count ≤ vec_len vacant.new) }
{
    for _i in vacant.len()..count as usize {
        add_pair(vacant, pairs, lists)?;
    }
    Ok(())
}
