//! One seat of the table made into all, and all made into one.

ghost use Rattle.std.specs.Prelude.{◌≡◌, ◌<◌, ◌≤◌, [], All, length, vec_capacity};
ghost use Rattle.turn_lock.specs.Badges.{IsLockTable};
ghost use Rattle.turn_lock.specs.Seats.{IsIdle, new_seats};
ghost use Rattle.turn_lock.specs.Views.{first_view};
ghost use Rattle.turn_lock.specs.Collected.{all_view};

use crate::key::{Place, SharedTable};
use crate::moves::{Collect, Deal};
use crate::seat::Seat;
use history::Kept;

/// Splits the first seat of the table into seats with a number each.
pub(crate) fn deal<V: Kept>(
    table: &SharedTable<V>,
    first: Place<V>,
    seats: u32,
    mut list: Vec<Seat>,
) -> Vec<Seat>
    requires table { IsLockTable table.now.table_id }
    requires lock { first.table_id ≡ table.now.table_id }
    requires view { first.me ≡ (first_view seats, []) }
    requires some { 0 < seats }
    requires empty { list.items ≡ [] }
    requires room { seats ≤ vec_capacity list }
    ensures { result.items ≡ new_seats table.now.table_id seats }
{
    let last = seats - 1;
    let mut rest = first;
    for number in 0..last {
        let others = table.split_seat::<Deal>(&mut rest);
        list.push_reserved(Seat::new(rest.into_badge(), number));
        rest = others;
    }
    list.push_reserved(Seat::new(rest.into_badge(), last));
    list
}

/// Joins the seats into one, which knows what each of them knew.
pub(crate) fn collect<V: Kept>(table: &SharedTable<V>, mut seats: Vec<Seat>) -> Place<V>
    requires table { IsLockTable table.now.table_id }
    requires some { 0 < length seats.items }
    requires idle { All (IsIdle table.now.table_id) seats.items }
    ensures lock { result.table_id ≡ table.now.table_id }
    ensures view { result.me ≡ (all_view seats.items, []) }
{
    let Some(last) = seats.pop() else {
        unreachable!()
    };
    let mut all = last.into_badge().into_seat();
    while let Some(seat) = seats.pop() {
        let mut place = seat.into_badge().into_seat();
        table.join_seat::<Collect>(&mut place, all);
        all = place;
    }
    all
}
