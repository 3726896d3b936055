//! What seats know of the lock. It is known in proofs alone: no value of these types is made.

use history::Entry;
use std::collections::LinkedList;

/// What is known of one number: entries of the history, up to the last one that a seat of this number has seen.
pub struct Note {
    pub number: u64,
    pub seen: LinkedList<Entry>,
}

/// What a seat knows.
pub struct View {
    /// Whether it has the turn.
    pub holds: bool,
    /// Whether it has the slot of the lock's value as well.
    pub has_slot: bool,
    /// Its own note, and then those of the seats that are to be split off or were joined.
    pub notes: LinkedList<Note>,
}
