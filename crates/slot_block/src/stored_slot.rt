//! A slot as it lies in memory (JVMS 2.6.1).

ghost use Rattle.std.specs.Prelude.{◌≡◌};

use instruction_rows::{Slot, Value};
use std::marker::Model;

/// What lies in a stored slot.
#[derive(Clone, Copy)]
pub(crate) enum StoredKind {
    Int,
    Long,
    Null,
    Ref,
    Second,
}

/// A slot in sixteen bytes: what it holds, and a word. An int, a long or a reference is read off the word without a look at
/// the kind, where the kind is known.
#[derive(Clone, Copy, Drop)]
pub struct StoredSlot {
    pub(crate) kind: StoredKind,
    pub(crate) word: u64,
}

impl Model for StoredSlot {
    ghost use Rattle.instruction_rows.specs.declared.value.Slot.{Slot};

    ghost Value = { Slot };

    ghost use Rattle.slot_block.specs.StoredSlots.{seen, IsStored, hidden, hidden-seen};

    ghost view = { seen };

    ghost invariant = { IsStored };

    ghost inverse = { hidden };

    ghost inverse_ok = { hidden-seen };
}

impl StoredSlot {
    /// Stores a slot.
    #[inline(always)]
    pub fn of(slot: Slot) -> Self
        ensures { result ≡ slot }
    {
        match slot {
            Slot::One(Value::Int(x)) => StoredSlot {
                kind: StoredKind::Int,
                word: u64::from(x.cast_unsigned()),
            },
            Slot::One(Value::Long(x)) => StoredSlot {
                kind: StoredKind::Long,
                word: x.cast_unsigned(),
            },
            Slot::One(Value::Null) => StoredSlot {
                kind: StoredKind::Null,
                word: 0,
            },
            Slot::One(Value::Ref(object)) => StoredSlot {
                kind: StoredKind::Ref,
                word: u64::from(object),
            },
            Slot::Second => StoredSlot {
                kind: StoredKind::Second,
                word: 0,
            },
        }
    }

    /// The slot that is stored.
    #[inline(always)]
    pub fn slot(self) -> Slot
        ensures { result ≡ self }
    {
        let word = self.word;
        match self.kind {
            StoredKind::Int => Slot::One(Value::Int((word as u32).cast_signed())),
            StoredKind::Long => Slot::One(Value::Long(word.cast_signed())),
            StoredKind::Null => Slot::One(Value::Null),
            StoredKind::Ref => Slot::One(Value::Ref(word as u32)),
            StoredKind::Second => Slot::Second,
        }
    }
}
