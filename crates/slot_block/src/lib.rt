//! Slots (JVMS 2.6.1, 2.6.2) in memory, sixteen bytes each: a stored slot, reads and writes by kind, and a block of slots.
#![tactic(auto)]

mod block;
mod stored_slot;
mod typed;

pub use block::SlotBlock;
pub use stored_slot::StoredSlot;
pub use typed::{
    int_at, long_at, put_int, put_long, put_null, put_reference, put_slot, reference_at, slot_at,
};
