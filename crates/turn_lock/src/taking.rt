//! Taking the turn with the value, and giving both back.

ghost use Rattle.std.specs.Prelude.{◌≡◌, true, false, [], ◌∷◌, length, IfOk, IfSome, OnErr};
ghost use mathlib.Core.List.{IsPrefix};
ghost use Rattle.history.specs.Carriers.{made_by};
ghost use Rattle.turn_lock.specs.Badges.{IsLockTable, only_view};
ghost use Rattle.turn_lock.specs.Seats.{Continues};
ghost use Rattle.turn_lock.specs.Moves.{IsCounted, IsTaken};
ghost use Rattle.turn_lock.specs.Views.{number_of, seen_of, view_of};

use crate::key::{COUNT, Place, SharedTable, TURN, WAITING};
use crate::moves::{Admits, CountOne, GiveBack, PickUp, PutDown, Take};
use crate::view::View;
use crate::waiting::{Patience, wait};
use atomic_table::Badge;
use history::Kept;
use std::sync::Wait;

/// Waits until the turn is free, takes it, and takes the value out of the slot.
pub(crate) fn take_value<V: Kept, A: Admits<V>, R: Wait>(
    rt: &R,
    table: &SharedTable<V>,
    badge: Badge<View>,
    number: u32,
    patience: &mut Patience,
) -> (V, Badge<View>)
    requires table { IsLockTable table.now.table_id }
    requires lock { badge.table_id ≡ table.now.table_id }
    requires view { badge.views ≡ view_of false number (seen_of (only_view badge.views)) ∷ [] }
    requires admits { (v : V) → V.setting v ≡ V.setting table.now.key.initial.value → A.admits v }
    ensures admits { A.admits result.0 }
    ensures lock { result.1.table_id ≡ badge.table_id }
    ensures view { result.1.views ≡ view_of true number (V.history result.0) ∷ [] }
    ensures begins { IsPrefix (seen_of (only_view badge.views)) (V.history result.0) }
    ensures exact { made_by number (V.history result.0)
        ≡ made_by number (seen_of (only_view badge.views)) }
{
    let mut place: Place<V> = badge.into_seat();
    let value = match try_take::<V, A>(table, &mut place, number) {
        Ok(value) => value,
        Err(found) => take_later::<V, A, R>(rt, table, &mut place, number, found, patience),
    };
    (value, place.into_badge())
}

// Waits until the turn, which was found to be another's, is free, and takes it with the value. It stands apart, since a turn that is free is
// taken within the caller's loop.
#[inline(never)]
fn take_later<V: Kept, A: Admits<V>, R: Wait>(
    rt: &R,
    table: &SharedTable<V>,
    place: &mut Place<V>,
    number: u32,
    mut found: u64,
    patience: &mut Patience,
) -> V
    requires table { IsLockTable table.now.table_id }
    requires lock { place.old.table_id ≡ table.now.table_id }
    requires view { place.old.me ≡ (view_of false number (seen_of place.old.me.0), []) }
    requires admits { (v : V) → V.setting v ≡ V.setting table.now.key.initial.value → A.admits v }
    ensures lock { place.new.table_id ≡ place.old.table_id }
    ensures taken { IsTaken V.history A.admits number (seen_of place.old.me.0) result place.new.me }
{
    for _ in rt.forever() {
        wait(rt, table, place, found, patience);
        match try_take::<V, A>(table, place, number) {
            Ok(value) => return value,
            Err(turn) => found = turn,
        }
    }
    unreachable!()
}

// Takes the turn with the value, or says what the turn was found to be.
fn try_take<V: Kept, A: Admits<V>>(
    table: &SharedTable<V>,
    place: &mut Place<V>,
    number: u32,
) -> Result<V, u64>
    requires table { IsLockTable table.now.table_id }
    requires lock { place.old.table_id ≡ table.now.table_id }
    requires view { place.old.me ≡ (view_of false number (seen_of place.old.me.0), []) }
    requires admits { (v : V) → V.setting v ≡ V.setting table.now.key.initial.value → A.admits v }
    ensures lock { place.new.table_id ≡ place.old.table_id }
    ensures ok { IfOk result (λ v.
        IsTaken V.history A.admits number (seen_of place.old.me.0) v place.new.me) }
    ensures err { OnErr result (place.new.me ≡ place.old.me) }
{
    let found = table.compare_exchange::<Take<A>>(place, TURN, 0, u64::from(number) + 1);
    if found != 0 {
        return Err(found);
    }
    let value = table.exchange(place, 0, None).unwrap();
    table.load::<PutDown>(place, TURN);
    Ok(value)
}

/// Counts the new entries, puts the value into the slot, and ends the turn.
pub(crate) fn give_value<V: Kept>(
    table: &SharedTable<V>,
    badge: Badge<View>,
    number: u32,
    count: u64,
    value: V,
) -> Badge<View>
    requires table { IsLockTable table.now.table_id }
    requires lock { badge.table_id ≡ table.now.table_id }
    requires view { badge.views ≡ view_of true number (seen_of (only_view badge.views)) ∷ [] }
    requires count { count ≡ length (seen_of (only_view badge.views)) }
    requires setting { V.setting value ≡ V.setting table.now.key.initial.value }
    requires continues { Continues number (seen_of (only_view badge.views)) (V.history value) }
    ensures lock { result.table_id ≡ badge.table_id }
    ensures view { result.views ≡ view_of false number (V.history value) ∷ [] }
{
    let mut place: Place<V> = badge.into_seat();
    table.load::<PickUp>(&mut place, TURN);
    let end = value.entries().len() as u64;
    let value = Some(value);
    for n in count..end {
        table.compare_exchange_with::<CountOne>(&mut place, COUNT, n, n + 1, &value);
    }
    end_turn(table, &mut place, value);
    place.into_badge()
}

// Puts the value into the slot, ends the turn, and wakes one of those who may be asleep.
fn end_turn<V: Kept>(table: &SharedTable<V>, place: &mut Place<V>, value: Option<V>)
    requires table { IsLockTable table.now.table_id }
    requires lock { place.old.table_id ≡ table.now.table_id }
    requires counted { IsCounted V.history place.old.me value }
    requires setting { IfSome value (λ v. V.setting v ≡ V.setting table.now.key.initial.value) }
    ensures lock { place.new.table_id ≡ place.old.table_id }
    ensures view { place.new.me
        ≡ (view_of false (number_of place.old.me.0) (seen_of place.old.me.0), []) }
{
    let empty = table.exchange(place, 0, value);
    let None = empty else { unreachable!() };
    table.store::<GiveBack>(place, TURN, 0);
    if table.peek(WAITING) != 0 {
        table.wake_one(TURN);
    }
}
