//! A seat.
ghost use Rattle.std.specs.Prelude.{◌≡◌};
ghost use Rattle.mp_seat.specs.Seated.{seat_state, HasOneRow};

use crate::rows::Rows;
use crate::view::SeatView;
use std::marker::Model;

/// What a seat is made of.
pub(crate) type Inner<T> = atomic_table::Seat<Option<T>, SeatView<<T as Rows>::Row>>;

/// A seat of a lock, which has one row of the value. Contracts see which lock it is of, its number, its
/// row as it put it last, the version that it has seen, and while it holds the value the rows as it took
/// them. Its number is all that it has in bytes, and it may go to another thread.
#[derive(Drop)]
pub struct Seat<T: Rows> {
    pub(crate) inner: Inner<T>,
    pub(crate) number: u32,
}

impl<T: Rows> Model for Seat<T> {
    ghost use Rattle.mp_seat.specs.Seats.{SeatState};

    ghost Value = { SeatState T.Row };

    ghost use Rattle.std.specs.Prelude.{◌≡◌};
    ghost use Rattle.mp_seat.specs.Seated.{seat_state, HasOneRow};

    ghost view = { λ s. seat_state s.inner };

    ghost invariant = { λ s. HasOneRow s.inner × (s.inner.me.0.first ≡ s.number) };
}

impl<T: Rows> Seat<T> {
    /// Its place in the list that `open` gave.
    pub fn number(&self) -> u32
        ensures { result ≡ self.now.number }
    {
        self.number
    }

    pub(crate) fn into_inner(self) -> Inner<T>
        ensures state { seat_state result ≡ self }
        ensures one { HasOneRow result }
    {
        let Seat { inner, number: _ } = self;
        inner
    }
}
