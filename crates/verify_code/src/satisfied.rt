//! Stores after which the exception handlers were satisfied, so that the next store of the same types takes constant time.

ghost use Rattle.std.specs.Prelude.{IfSome, MatchBool, OnOk};
ghost use Rattle.std.specs.List.{All};
ghost use Rattle.verify_types.specs.Environment.{Environment as Env};
ghost use Rattle.verify_types.specs.TypeStates.{TypeState};
ghost use Rattle.verify_code.specs.Satisfied.{AllTaken, AreJudged, AreTaken, IsJudgedFrom, IsOf, IsTaken};

use items::NoMemory;
use std::alloc::Global;
use verify_frames::{Around, Judged, are_same, holds_at};

// The most stores to one local variable that are looked at.
const MOST: usize = 1024;

// No store.
const NONE: u32 = 0xffff_ffff;

/// Where two states satisfy the exception handlers. A third state satisfies those that both satisfy.
#[derive(Clone, Copy)]
pub struct JudgedTwice {
    pub one: Judged,
    pub other: Judged,
}

/// A store after which a state satisfied the exception handlers.
#[derive(Clone, Copy)]
pub struct SatisfiedStore {
    /// The local variable that was stored to.
    pub local: u16,
    /// The types around it.
    pub around: Around,
    /// Where the state satisfied them.
    pub judged: Judged,
    /// The index of the store to the same local variable before this one.
    pub before: u32,
}

/// The stores of a method after which a state satisfied the exception handlers.
#[derive(Drop)]
pub struct SatisfiedStores {
    pub stores: Vec<SatisfiedStore>,
    /// For each local variable the index of the last store.
    pub last: Vec<u32>,
}

// Whether a store left these types around a local variable.
fn is_of(store: &SatisfiedStore, local: u16, around: Around) -> bool
    ensures { MatchBool result (IsOf store.now local around) (Unit {0}) }
{
    if store.local != local {
        return false;
    }
    if !are_same(store.around, around) {
        return false;
    }
    true
}

// The index of the last store to a local variable.
fn last_of(last: &[u32], local: u16) -> u32 {
    match last.get(usize::from(local)) {
        Some(index) => *index,
        None => NONE,
    }
}

// Makes an index that of the last store to a local variable.
fn set_last(last: &mut Vec<u32>, local: u16, index: u32) -> Result<(), NoMemory> {
    let place = usize::from(local);
    if last.len() <= place {
        last.resize(place + 1, NONE)?;
    }
    if place < last.len() {
        last[place] = index;
    }
    Ok(())
}

// The store with an index.
fn store_at(stores: &[SatisfiedStore], index: u32) -> Option<SatisfiedStore>
    ensures { (env : Env) → All (IsTaken env) stores.now → IfSome result (IsTaken env) }
{
    match stores.get(index as usize) {
        Some(store) => Some(*store),
        None => None,
    }
}

// Where a state with these types around a local variable satisfied the handlers: the last of the stores from this one on that says so.
fn taken_from(stores: &[SatisfiedStore], index: u32, local: u16, around: Around) -> Option<Judged>
    ensures { (env : Env) → All (IsTaken env) stores.now
        → IfSome result (AreTaken env local around) }
{
    let mut index = index;
    for _ in 0..MOST {
        let Some(store) = store_at(stores, index) else {
            return None;
        };
        if is_of(&store, local, around) {
            return Some(store.judged);
        }
        index = store.before;
    }
    None
}

impl SatisfiedStores {
    /// No store.
    pub fn new(alloc: Global) -> Self
        ensures { (env : Env) → AllTaken env result }
    {
        SatisfiedStores {
            stores: Vec::new(alloc),
            last: Vec::new(alloc),
        }
    }

    /// Where a state with these types around a local variable satisfied the handlers. `None`: it isn't known.
    pub fn taken(&self, local: u16, around: Around) -> Option<Judged>
        ensures { (env : Env) → AllTaken env self.now
            → IfSome result (AreTaken env local around) }
    {
        taken_from(&self.stores, last_of(&self.last, local), local, around)
    }

    /// Remembers a store.
    pub fn put(&mut self, local: u16, around: Around, judged: Judged) -> Result<(), NoMemory>
        ensures { OnOk result ((env : Env) → AllTaken env self.old
            → AreTaken env local around judged → AllTaken env self.new) }
    {
        let before = last_of(&self.last, local);
        let Ok(index) = u32::try_from(self.stores.len()) else {
            return Ok(());
        };
        self.stores.push(SatisfiedStore {
            local,
            around,
            judged,
            before,
        })?;
        set_last(&mut self.last, local, index)
    }
}

/// Where a state satisfies the handlers, if it does so at the pc, as two others show.
pub fn judged_on(pc: u32, twice: Option<JudgedTwice>) -> Option<Judged>
    ensures { (env : Env) (s : TypeState) → IfSome twice (AreJudged env s)
        → IfSome result (IsJudgedFrom env s pc) }
{
    let Some(twice) = twice else {
        return None;
    };
    if !holds_at(pc, Some(twice.one)) {
        return None;
    }
    if !holds_at(pc, Some(twice.other)) {
        return None;
    }
    Some(Judged {
        at: pc,
        until: twice.one.until.min(twice.other.until),
    })
}
