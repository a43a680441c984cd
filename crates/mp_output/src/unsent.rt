//! The rows that wait to be sent.
ghost use Rattle.std.specs.Prelude.{◌≡◌, ◌≤◌, ◌<◌, ◌+◌, ◌∷◌, [], Contains, IfSome, IfNone, IsOk, OnErr, OnOk};
ghost use Rattle.mp_model.specs.Stages.{answer_rows};
ghost use Rattle.mp_model.specs.Tables.{table_of};
ghost use Rattle.mp_ordered.specs.InOrder.{IsInOrder, put_in_order};
ghost use Rattle.mp_output.specs.Unwritten.{place_rank};

use crate::place::ByPlace;
use mp_model::{Naming, Output, Query};
use mp_ordered::OrderedBlocks;
use std::alloc::{AllocError, Global};
use std::marker::{Model, PhantomData};

/// The answer rows of the job J of the query Q that a worker has to send to worker 0 and hasn't sent. Contracts see an
/// `Unwritten`: the rows in the order of their places, and how many more there is room for.
pub struct Unsent<Q: Query, J: Naming> {
    rows: OrderedBlocks<Output, ByPlace>,
    of: PhantomData<(Q, J)>,
}

// By hand, so that crates above call it and don't write out the drop of each field.
impl<Q: Query, J: Naming> Drop for Unsent<Q, J> {
    fn drop(self) {
        let Unsent { rows: _, of: _ } = self;
    }
}

impl<Q: Query, J: Naming> Model for Unsent<Q, J> {
    ghost use Rattle.std.specs.Prelude.{All, Contains};
    ghost use Rattle.mp_model.specs.Stages.{answer_rows};
    ghost use Rattle.mp_output.specs.Unwritten.{Unwritten};
    ghost use Rattle.mp_model.specs.Tables.{table_of};

    ghost Value = { Unwritten };

    ghost view = { λ r. record { rows = r.rows.items; room = r.rows.room } };

    ghost invariant = { λ r. All (Contains (answer_rows (table_of Q.facts J.job) J.job.events)) r.rows.items };
}

impl<Q: Query, J: Naming> Unsent<Q, J> {
    /// No rows.
    pub fn new(alloc: Global) -> Unsent<Q, J>
        ensures { result.rows ≡ [] }
    {
        Unsent {
            rows: OrderedBlocks::new(alloc),
            of: PhantomData,
        }
    }

    /// Makes room, so that the next `count` calls of `hold` answer `Ok`. `AllocError`: no memory, and nothing changes.
    pub fn make_room(&mut self, count: u64) -> Result<(), AllocError>
        ensures room { OnOk result (count ≤ self.new.room) }
        ensures rows { self.new.rows ≡ self.old.rows }
        ensures unchanged { OnErr result (self.new ≡ self.old) }
    {
        self.rows.make_room(count)
    }

    /// Holds an answer row of the job, at its place. `AllocError`: no memory, never where there is room. The row is then
    /// lost, and the other rows are as they were.
    #[inline(always)]
    pub fn hold(&mut self, row: Output) -> Result<(), AllocError>
        requires { Contains (answer_rows (table_of Q.facts J.job) J.job.events) row }
        ensures put { OnOk result (self.new.rows ≡ put_in_order place_rank row self.old.rows) }
        ensures room { OnOk result (self.old.room ≤ self.new.room + 1) }
        ensures unchanged { OnErr result (self.new ≡ self.old) }
        ensures never_refused_with_room { 0 < self.old.room → IsOk result }
    {
        self.rows.insert(row)
    }

    /// Gives up the first row by time and tag, an answer row of the job; `None` exactly where there is none. It leaves
    /// its room, so `hold` takes it back to its place.
    pub fn pop_first(&mut self) -> Option<Output>
        ensures some { IfSome result (λ x. self.old.rows ≡ x ∷ self.new.rows) }
        ensures back { IfSome result (λ x. put_in_order place_rank x self.new.rows ≡ self.old.rows) }
        ensures in_order { IfSome result (λ x. IsInOrder place_rank self.old.rows) }
        ensures content { IfSome result (λ x. Contains (answer_rows (table_of Q.facts J.job) J.job.events) x) }
        ensures room { IfSome result (λ x. self.new.room ≡ self.old.room + 1) }
        ensures none { IfNone result (self.old.rows ≡ []) }
        ensures unchanged { IfNone result (self.new ≡ self.old) }
    {
        self.rows.first()?;
        self.rows.pop_first()
    }
}
