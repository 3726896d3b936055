//! What each step on the table tells the seat that makes it.

use crate::view::View;
use atomic_table::{Join, Play, Split};
use history::Kept;
use std::marker::{Brand, PhantomData};

/// A fact that holds of each value that is taken. A call picks it, since a step can't name what the lock was made with.
pub trait Admits<V> {
    ghost admits: { V → Type 0 };
}

impl<V> Admits<V> for Brand {
    ghost admits = { λ _. Unit {0} };
}

/// Takes the turn, and the slot with it, where it is free.
pub struct Take<A> {
    admits: PhantomData<A>,
}

impl<V: Kept, A: Admits<V>> Play<Option<V>, View> for Take<A> {
    ghost use Rattle.turn_lock.specs.Moves.{Takes};

    ghost then = { Takes V.history A.admits };
}

/// Puts the slot down and keeps the turn.
pub struct PutDown;

impl<V> Play<Option<V>, View> for PutDown {
    ghost use Rattle.turn_lock.specs.Moves.{PutsDown};

    ghost then = { PutsDown };
}

/// Picks the slot up again.
pub struct PickUp;

impl<V> Play<Option<V>, View> for PickUp {
    ghost use Rattle.turn_lock.specs.Moves.{PicksUp};

    ghost then = { PicksUp };
}

/// Counts one more entry of the value that is announced.
pub struct CountOne;

impl<V: Kept> Play<Option<V>, View> for CountOne {
    ghost use Rattle.turn_lock.specs.Moves.{Counts};

    ghost then = { Counts V.history };
}

/// Ends the turn, and puts the slot down.
pub struct GiveBack;

impl<V> Play<Option<V>, View> for GiveBack {
    ghost use Rattle.turn_lock.specs.Moves.{Gives};

    ghost then = { Gives };
}

/// Changes the count of those who are about to sleep.
pub struct Stay;

impl<V> Play<Option<V>, View> for Stay {
    ghost use Rattle.turn_lock.specs.Moves.{Stays};

    ghost then = { Stays };
}

/// Leaves a seat its own note, and gives the others to a new seat.
pub struct Deal;

impl Split<View> for Deal {
    ghost use Rattle.turn_lock.specs.Views.{own_view, others_view};

    ghost left = { own_view };

    ghost right = { others_view };
}

/// Gives a seat the notes of another.
pub struct Collect;

impl Join<View> for Collect {
    ghost use Rattle.turn_lock.specs.Views.{joined_view, spent_view};

    ghost both = { joined_view };

    ghost spent = { spent_view };
}
