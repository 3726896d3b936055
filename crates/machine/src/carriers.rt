//! What carriers take up and put down: threads in deques, and frames of threads that no carrier runs.

ghost use Rattle.std.specs.Prelude.{◌≡◌, ◌<◌, ◌≤◌, ℕ, [], ◌∷◌, Contains, IsTrue, None, Some, filter, if◌then◌else◌, length, slice_get, slice_set};
ghost use Rattle.thread_lists.specs.Lists.{count, push, total};
ghost use Rattle.machine.specs.Insides.{IsFrozen};
ghost use Rattle.machine.specs.Puts.{is_loose};

use continuation::Frozen;
use run_deques::Deques;

/// Takes the frames of a thread out of those that no carrier runs.
pub(crate) fn take_frozen(frozen: &mut Vec<Option<Frozen>>, t: u32) -> Frozen
    requires { IsFrozen frozen.old.items t }
    ensures taken { slice_get frozen.old.items t ≡ Some (Some result) }
    ensures after { frozen.new.items ≡ slice_set frozen.old.items t None }
{
    match frozen[t as usize].take() {
        Some(taken) => taken,
        None => unreachable!(),
    }
}

/// Puts the frames of a thread among those that no carrier runs, where it is live.
pub(crate) fn put_frozen(frozen: &mut Vec<Option<Frozen>>, t: u32, kept: Frozen, live: bool)
    requires { t < length frozen.old.items }
    ensures { frozen.new.items
        ≡ if live then slice_set frozen.old.items t (Some kept) else frozen.old.items }
{
    if live {
        frozen[t as usize] = Some(kept);
    }
}

/// A carrier has this thread mounted now, or none.
pub(crate) fn set_mounted(mounted: &mut Vec<Option<u32>>, c: u32, thread: Option<u32>)
    requires { c < length mounted.old.items }
    ensures { mounted.new.items ≡ slice_set mounted.old.items c thread }
{
    mounted[c as usize] = thread;
}

/// Puts a thread into the deque of a carrier, where it is to be put.
pub(crate) fn put_if(deques: &mut Deques, c: u32, t: u32, wanted: bool)
    requires carrier { c < length deques.old.lists }
    requires room { t < deques.old.threads }
    requires free { IsTrue wanted → total (count t) deques.old.lists ≡ 0 }
    ensures lists { deques.new.lists
        ≡ push deques.old.lists c (if wanted then t ∷ [] else []) }
    ensures room { deques.new.threads ≡ deques.old.threads }
{
    if wanted {
        deques.put(c, t);
    }
}

// Puts a thread into the deque of a carrier, if it is in none.
fn put_if_loose(deques: &mut Deques, c: u32, t: u32)
    requires carrier { c < length deques.old.lists }
    requires room { t < deques.old.threads }
    ensures lists { deques.new.lists
        ≡ push deques.old.lists c (filter (is_loose deques.old.lists) (t ∷ [])) }
    ensures room { deques.new.threads ≡ deques.old.threads }
{
    if !deques.holds(t) {
        deques.put(c, t);
    }
}

/// Puts those of some threads that are in no deque into that of a carrier, in this order.
pub(crate) fn put_loose(deques: &mut Deques, c: u32, threads: &[u32])
    requires carrier { c < length deques.old.lists }
    requires room { (u : ℕ) → Contains threads.now u → u < deques.old.threads }
    requires once { (u : ℕ) → count u threads.now ≤ 1 }
    ensures lists { deques.new.lists
        ≡ push deques.old.lists c (filter (is_loose deques.old.lists) threads.now) }
    ensures room { deques.new.threads ≡ deques.old.threads }
{
    for t in threads {
        put_if_loose(deques, c, *t);
    }
}
