//! The lock.

ghost use Rattle.std.specs.Prelude.{◌≡◌, ◌<◌, ◌≤◌, true, false, [], All, IfOk, length};
ghost use Rattle.history.specs.Carriers.{made_by};
ghost use Rattle.turn_lock.specs.Seats.{Continues, HasNumber, HasSeenAll, IsIdle, new_seats};

use crate::dealing::{collect, deal};
use crate::key::{LockTable, make_table};
use crate::seat::Seat;
use crate::taking::{give_value, take_value};
use atomic_table::Badge;
use history::Kept;
use items::NoMemory;
use std::alloc::Global;
use std::marker::{Brand, Model};
use std::mem;
use std::sync::Wait;

/// A value with a history, which one seat at a time takes, works on and gives back.
#[derive(Drop)]
pub struct TurnLock<V: Kept> {
    table: LockTable<V>,
}

impl<V: Kept> Model for TurnLock<V> {
    ghost use Rattle.std.specs.Prelude.{◌<◌};
    ghost use Rattle.turn_lock.specs.Seats.{LockState};
    ghost use Rattle.turn_lock.specs.Badges.{IsLockTable, lock_state};

    ghost Value = { LockState V };

    ghost view = { λ l. lock_state l.table.shared.table_id l.table.shared.key };

    ghost invariant = { λ l. IsLockTable l.table.shared.table_id × (0 < l.table.shared.key.seats) };
}

/// The lock's value, for the length of a turn. It isn't `Drop`, since nobody else has a turn until it is given back.
pub struct Held<V> {
    pub value: V,
}

impl<V: Kept> TurnLock<V> {
    /// Makes a lock with its seats, in the order of their numbers from 0 on.
    pub fn new(alloc: Global, value: V, seats: u32) -> Result<(TurnLock<V>, Vec<Seat>), NoMemory>
    where
        V: Drop,
        requires seats { 0 < seats }
        requires empty { V.history value ≡ [] }
        ensures initial { IfOk result (λ r. r.0.initial ≡ value) }
        ensures count { IfOk result (λ r. r.0.seats ≡ seats) }
        ensures seats { IfOk result (λ r. r.1.items ≡ new_seats r.0.id seats) }
    {
        let list = Vec::with_capacity(alloc, seats as usize)?;
        let (table, first) = make_table(alloc, value, seats)?;
        let list = deal(&table.shared, first, seats, list);
        Ok((TurnLock { table }, list))
    }

    /// Waits until no other seat has the turn, and takes it with the value. It takes no memory.
    pub fn take<R: Wait>(&self, rt: &R, seat: &mut Seat) -> Held<V>
        requires lock { seat.old.lock ≡ self.now.id }
        requires idle { seat.old.holds ≡ false }
        ensures seat { seat.new ≡ record seat.old { seen = V.history result.value; holds = true } }
        ensures setting { V.setting result.value ≡ V.setting self.now.initial }
        ensures seen { HasSeenAll (V.history result.value) seat.old }
    {
        let badge = mem::replace(&mut seat.badge, Badge::blank());
        let (value, badge) = take_value::<V, Brand, R>(
            rt,
            &self.table.shared,
            badge,
            seat.number,
            &mut seat.patience,
        );
        seat.patience.end_take();
        seat.count = value.entries().len() as u64;
        seat.badge = badge;
        Held { value }
    }

    /// Gives the value back and ends the turn. It takes no memory.
    pub fn give(&self, seat: &mut Seat, held: Held<V>)
        requires lock { seat.old.lock ≡ self.now.id }
        requires turn { seat.old.holds ≡ true }
        requires setting { V.setting held.value ≡ V.setting self.now.initial }
        requires continues { Continues seat.old.number seat.old.seen (V.history held.value) }
        ensures { seat.new ≡ record seat.old { seen = V.history held.value; holds = false } }
    {
        let Held { value } = held;
        let end = value.entries().len() as u64;
        let badge = mem::replace(&mut seat.badge, Badge::blank());
        seat.badge = give_value(&self.table.shared, badge, seat.number, seat.count, value);
        seat.count = end;
    }

    /// Ends the lock once all its seats are back, and gives its value.
    pub fn close(self, seats: Vec<Seat>) -> V
        requires count { length seats.items ≡ self.seats }
        requires idle { All (IsIdle self.id) seats.items }
        ensures setting { V.setting result ≡ V.setting self.initial }
        ensures seats { All (HasSeenAll (V.history result)) seats.items }
        ensures every { (k : _) → k < self.seats → HasNumber k seats.items }
        ensures others { (k : _) → self.seats ≤ k → made_by k (V.history result) ≡ [] }
    {
        let TurnLock { table } = self;
        let all = collect(&table.shared, seats);
        let mut closed = table.close_with(all);
        let value = closed.take(0).unwrap();
        closed.free();
        value
    }
}
