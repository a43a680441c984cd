//! What a bin has.
ghost use Rattle.std.specs.Prelude.{◌≡◌, [], IfOk};

use mp_postdated::Wakes;
use std::alloc::{AllocError, Global};
use std::collections::HashMap;
use std::marker::Model;

/// The state of a bin of a stage: the cells of its keys and the wakes of its keys. A key that has no cell has a fresh one.
/// Contracts see the cells by key, and the wakes by time and then by key.
#[derive(Drop)]
pub struct BinState<C: Drop> {
    /// None of them is fresh.
    pub cells: HashMap<u64, C>,
    /// The times at which its keys are to be woken.
    pub wakes: Wakes,
}

impl<C: Drop> Model for BinState<C> {
    ghost use Rattle.mp_msg.specs.States.{BinContent, IsInOrder, by_key};

    ghost Value = { BinContent C };

    ghost view = { λ s. record { cells = by_key s.cells.entries; wakes = s.wakes.wakes } };

    ghost invariant = { λ s. IsInOrder (record { cells = by_key s.cells.entries; wakes = s.wakes.wakes }) };
}

impl<C: Drop> BinState<C> {
    /// The state of a bin whose keys have had no group: no cells and no wakes.
    pub fn new(alloc: Global) -> BinState<C>
        ensures cells { result.cells ≡ [] }
        ensures wakes { result.wakes ≡ [] }
    {
        BinState {
            cells: HashMap::new(alloc),
            wakes: Wakes::new(alloc),
        }
    }
}

/// The state of a bin in a place of its own on the heap, as a message carries it, so that all messages are small. Contracts
/// see the state.
pub struct BoxedState<C: Drop> {
    state: Box<BinState<C>>,
}

// By hand, so that crates above call it and don't write out the drop of each field.
impl<C: Drop> Drop for BoxedState<C> {
    fn drop(self) {
        let BoxedState { state: _ } = self;
    }
}

impl<C: Drop> Model for BoxedState<C> {
    ghost use Rattle.mp_msg.specs.States.{BinContent};

    ghost Value = { BinContent C };

    ghost view = { λ b. b.state.value };
}

impl<C: Drop> BoxedState<C> {
    /// A place with the state of a bin whose keys have had no group. `AllocError`: no memory.
    pub fn new(alloc: Global) -> Result<BoxedState<C>, AllocError>
        ensures cells { IfOk result (λ boxed. boxed.cells ≡ []) }
        ensures wakes { IfOk result (λ boxed. boxed.wakes ≡ []) }
    {
        Ok(BoxedState {
            state: Box::new(alloc, BinState::new(alloc))?,
        })
    }

    /// This place with another state. Takes no memory.
    pub fn with(self, state: BinState<C>) -> BoxedState<C>
        ensures { result ≡ state }
    {
        let BoxedState { state: mut place } = self;
        Box::replace(&mut place, state);
        BoxedState { state: place }
    }

    /// The state.
    pub fn into_state(self) -> BinState<C>
        ensures { result ≡ self }
    {
        let BoxedState { state } = self;
        Box::into_inner(state)
    }
}
