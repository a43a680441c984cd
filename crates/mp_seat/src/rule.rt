//! The rule of the lock, and its steps.
use crate::rows::Rows;
use crate::view::SeatView;
use atomic_table::{Join, Play, Split, TableRule};
use std::snapshot::Snapshot;

/// The rule of the lock. It is fixed when the lock is made how many rows there are.
pub struct LockRule;

impl<T: Rows> TableRule<Option<T>, SeatView<T::Row>, Snapshot<T>> for LockRule {
    ghost use Rattle.mp_seat.specs.Rule.{rule_of, opening_view};

    ghost holds = { λ opened. rule_of T.rows T.version opened.value };

    ghost first = { λ opened. opening_view T.rows T.version opened.value };
}

/// A seat takes the value, or finds that another seat holds it.
pub struct Takes;

impl<T: Rows> Play<Option<T>, SeatView<T::Row>> for Takes {
    ghost use Rattle.mp_seat.specs.Rule.{TakesOrNot};

    ghost then = { TakesOrNot T.rows T.version };
}

/// A seat puts the value.
pub struct Puts;

impl<T: Rows> Play<Option<T>, SeatView<T::Row>> for Puts {
    ghost use Rattle.mp_seat.specs.Rule.{PutsBack};

    ghost then = { PutsBack T.rows T.version };
}

/// The first row of a seat goes to a new seat.
pub struct FirstRow;

impl<R> Split<SeatView<R>> for FirstRow {
    ghost use Rattle.mp_seat.specs.Rule.{first_row, other_rows};

    ghost left = { other_rows };

    ghost right = { first_row };
}

/// The rows of a second seat go before those of the first.
pub struct RowsBefore;

impl<R> Join<SeatView<R>> for RowsBefore {
    ghost use Rattle.mp_seat.specs.Rule.{joined, spent};

    ghost both = { joined };

    ghost spent = { spent };
}
