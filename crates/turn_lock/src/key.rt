//! The lock's table: its words, its slot, and the rule that both keep.

ghost use Rattle.std.specs.Prelude.{◌≡◌, [], IfOk};
ghost use Rattle.turn_lock.specs.Badges.{IsLockTable};
ghost use Rattle.turn_lock.specs.Views.{first_view};

use crate::view::View;
use atomic_table::{Seat, Shared, Table, TableRule};
use history::Kept;
use items::NoMemory;
use std::alloc::Global;
use std::snapshot::Snapshot;

/// The word that says whose turn it is: 0, or the number of a seat plus 1.
pub const TURN: usize = 0;
/// The word that counts the entries of the history.
pub const COUNT: usize = 1;
/// The word that counts the carriers that are about to sleep. The rule says nothing of it.
pub const WAITING: usize = 2;

/// What is fixed when the lock is made.
#[derive(Drop)]
pub struct Key<V> {
    pub initial: Snapshot<V>,
    pub seats: u32,
}

/// What holds of the words, the slot and the seats at any time.
pub struct LockRule;

impl<V: Kept> TableRule<Option<V>, View, Key<V>> for LockRule {
    ghost use Rattle.turn_lock.specs.Views.{first_view};
    ghost use Rattle.turn_lock.specs.Rules.{IsInOrder};

    ghost holds = { λ key. IsInOrder V.history V.setting key.initial.value key.seats };

    ghost first = { λ key. first_view key.seats };
}

pub type LockTable<V> = Table<Option<V>, View, Key<V>, LockRule, Global>;

/// The table as the seats share it.
pub type SharedTable<V> = Shared<Option<V>, View, Key<V>, LockRule>;

/// A seat at the table, which may have its slot.
pub(crate) type Place<V> = Seat<Option<V>, View>;

/// Makes a table, with the seat of which all others are split off.
pub(crate) fn make_table<V: Kept + Drop>(
    alloc: Global,
    value: V,
    seats: u32,
) -> Result<(LockTable<V>, Place<V>), NoMemory>
    requires { V.history value ≡ [] }
    ensures table { IfOk result (λ r. IsLockTable r.0.shared.table_id) }
    ensures initial { IfOk result (λ r. r.0.shared.key.initial.value ≡ value) }
    ensures seats { IfOk result (λ r. r.0.shared.key.seats ≡ seats) }
    ensures lock { IfOk result (λ r. r.1.table_id ≡ r.0.shared.table_id) }
    ensures view { IfOk result (λ r. r.1.me ≡ (first_view seats, [])) }
{
    let key = Key {
        initial: Snapshot::of(&value),
        seats,
    };
    let mut slots = Vec::with_capacity(alloc, 1)?;
    slots.push_reserved(Some(value));
    match LockTable::new(alloc, &[0, 0, 0], slots, &key) {
        Ok(made) => Ok(made),
        Err(_) => Err(NoMemory),
    }
}
