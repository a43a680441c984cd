//! What parts items in two.
ghost use Rattle.std.specs.Prelude.{◌≡◌, Bool};

use crate::order::Order;
use std::marker::PhantomData;

/// A test that parts items in order: those in front pass it, and those behind don't.
pub trait Cut<T> {
    // Which items stand in front, as contracts alone see.
    ghost front: { Self → T → Bool };

    /// Whether an item stands in front.
    fn is_in_front(&self, item: &T) -> bool
        ensures { result ≡ front self.now item.now };
}

/// The items that come before another one.
#[derive(Drop)]
pub struct Before<'a, T, O: Order<T>> {
    /// The other one.
    pub item: &'a T,
    /// The order.
    pub of: PhantomData<O>,
}

impl<'a, T, O: Order<T>> Cut<T> for Before<'a, T, O> {
    ghost use Rattle.mp_names.specs.Names.{is_before};

    ghost front = { λ c other. is_before (O.rank other) (O.rank c.item.now) };

    fn is_in_front(&self, other: &T) -> bool {
        O::is_before(other, self.item)
    }
}
