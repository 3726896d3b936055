//! How a seat waits for the turn, while another one has it.

ghost use Rattle.std.specs.Prelude.{◌≡◌};
ghost use Rattle.turn_lock.specs.Badges.{IsLockTable};

use crate::key::{Place, SharedTable, TURN, WAITING};
use crate::moves::Stay;
use history::Kept;
use std::hint::spin_loop;
use std::sync::Wait;
use std::time::Duration;

// How often a seat looks whether the turn is free before it rests: for about a microsecond, in which another one makes several turns.
const LOOKS: u32 = 2_000;

// The credit that a seat has when it begins, and after each rest, and the most that it can have: how many takes more may find the turn
// another's than find it free before the seat leaves it to others for the length of a rest.
const CREDIT: u32 = 8;

// How long the first rest of a take lasts at most, in nanoseconds. Each further one lasts as much longer, up to the longest.
const FIRST_REST: u64 = 50_000;

const LONGEST_REST: u64 = 8 * FIRST_REST;

// How often a seat rests in one take before it sleeps until it is woken.
const MOST_RESTS: u32 = 100;

// The bits of a word that a sleep compares.
const SLEEP_BITS: u64 = 0xffff_ffff;

/// How a seat waits, and how it has found the turn of late: a credit of takes that may find it another's, whether this one did, and how often
/// the seat has rested in it.
#[derive(Drop)]
pub(crate) struct Patience {
    gives_way: bool,
    credit: u32,
    waits: bool,
    rests: u32,
}

impl Patience {
    /// That of a seat which has taken nothing yet.
    pub(crate) fn new() -> Self {
        Patience {
            gives_way: false,
            credit: CREDIT,
            waits: false,
            rests: 0,
        }
    }

    /// Whether the seat leaves the turn to others from now on, where it finds that they have it.
    #[inline(always)]
    pub(crate) fn give_way(&mut self, gives_way: bool) {
        self.gives_way = gives_way;
    }

    /// A take ends, which costs credit if it found the turn another's, and earns some if not. The next one may wait again.
    #[inline(always)]
    pub(crate) fn end_take(&mut self) {
        self.credit = if self.waits {
            self.credit.saturating_sub(1)
        } else {
            self.credit.saturating_add(1).min(CREDIT)
        };
        self.waits = false;
        self.rests = 0;
    }

    // A take finds the turn another's: whether it leaves it to others first. A seat that doesn't give way leaves it at most once.
    fn steps_back(&mut self) -> bool {
        let is_first = !self.waits;
        self.waits = true;
        self.gives_way || (is_first && self.credit == 0)
    }

    // How long the seat rests, in nanoseconds, after which it has all its credit again. `None`: it has rested often enough in this take.
    fn next_rest(&mut self) -> Option<u64> {
        if self.rests >= MOST_RESTS {
            return None;
        }
        self.rests += 1;
        self.credit = CREDIT;
        Some((FIRST_REST * u64::from(self.rests)).min(LONGEST_REST))
    }
}

/// Waits for the turn, which was found to be another's: the seat looks for a while, and then rests; in the end it sleeps. One that gives way
/// doesn't look; nor does one whose credit is used up, since it and another one have every other turn then, and the value goes to and fro
/// between two processors.
#[inline(never)]
pub(crate) fn wait<V: Kept, R: Wait>(
    rt: &R,
    table: &SharedTable<V>,
    place: &mut Place<V>,
    found: u64,
    patience: &mut Patience,
)
    requires table { IsLockTable table.now.table_id }
    requires lock { place.old.table_id ≡ table.now.table_id }
    ensures lock { place.new.table_id ≡ place.old.table_id }
    ensures same { place.new.me ≡ place.old.me }
{
    if !patience.steps_back() && becomes_free(table) {
        return;
    }
    match patience.next_rest() {
        Some(nanos) => rest(rt, table, nanos),
        None => sleep(rt, table, place, found),
    }
}

// Looks for a while whether the turn is free.
fn becomes_free<V: Kept>(table: &SharedTable<V>) -> bool
    requires { IsLockTable table.now.table_id }
{
    for _ in 0..LOOKS {
        if table.peek(TURN) == 0 {
            return true;
        }
        spin_loop();
    }
    false
}

// Rests for as many nanoseconds, unless somebody sleeps. Nobody is woken on the word that counts those who sleep, so a rest ends by its time.
fn rest<V: Kept, R: Wait>(rt: &R, table: &SharedTable<V>, nanos: u64)
    requires { IsLockTable table.now.table_id }
{
    table.park_timeout(rt, WAITING, 0, Duration::from_nanos(nanos));
}

// Sleeps, unless the turn has changed since it was found. No wake-up is lost: `park` looks at the turn after the sleeper has
// counted itself, and who gives the turn back looks at the count after that.
fn sleep<V: Kept, R: Wait>(rt: &R, table: &SharedTable<V>, place: &mut Place<V>, found: u64)
    requires table { IsLockTable table.now.table_id }
    requires lock { place.old.table_id ≡ table.now.table_id }
    ensures lock { place.new.table_id ≡ place.old.table_id }
    ensures same { place.new.me ≡ place.old.me }
{
    table.fetch_add::<Stay>(place, WAITING, 1);
    table.park(rt, TURN, (found & SLEEP_BITS) as u32);
    table.fetch_sub::<Stay>(place, WAITING, 1);
}
