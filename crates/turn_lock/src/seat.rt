//! Seats.

ghost use Rattle.std.specs.Prelude.{◌≡◌, false, [], ◌∷◌};
ghost use Rattle.turn_lock.specs.Seats.{new_seat};
ghost use Rattle.turn_lock.specs.Views.{view_of};

use crate::view::View;
use crate::waiting::Patience;
use atomic_table::Badge;
use std::marker::Model;

/// One of the numbered seats of a lock. Who has it takes turns in its name.
#[derive(Drop)]
pub struct Seat {
    pub(crate) badge: Badge<View>,
    pub(crate) number: u32,
    /// How many entries of the history it has seen.
    pub(crate) count: u64,
    /// How it has found the turn of late.
    pub(crate) patience: Patience,
}

impl Model for Seat {
    ghost use Rattle.turn_lock.specs.Seats.{SeatState};

    ghost Value = { SeatState };

    ghost use Rattle.turn_lock.specs.Badges.{IsBadgeOf, seat_state};

    ghost view = { λ s. seat_state s.badge.table_id s.number s.badge.views };

    ghost invariant = { λ s. IsBadgeOf s.badge.views s.number s.count };
}

impl Seat {
    /// A seat that has seen nothing yet.
    pub(crate) fn new(badge: Badge<View>, number: u32) -> Seat
        requires { badge.views ≡ view_of false number [] ∷ [] }
        ensures { result ≡ new_seat badge.table_id number }
    {
        Seat {
            badge,
            number,
            count: 0,
            patience: Patience::new(),
        }
    }

    /// The badge in the seat.
    pub(crate) fn into_badge(self) -> Badge<View>
        ensures lock { result.table_id ≡ self.lock }
        ensures view { result.views ≡ view_of self.holds self.number self.seen ∷ [] }
    {
        let Seat { badge, .. } = self;
        badge
    }

    /// Whether it leaves the turn to others from now on, where `take` finds that they have it: it rests then, and is late. Who has nothing
    /// at hand that others could wait for does well to give way.
    #[inline(always)]
    pub fn give_way(&mut self, gives_way: bool)
        ensures { self.new ≡ self.old }
    {
        self.patience.give_way(gives_way);
    }

    /// Its number, counted from 0.
    pub fn number(&self) -> u32
        ensures { result ≡ self.now.number }
    {
        self.number
    }
}
