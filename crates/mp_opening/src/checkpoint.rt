//! What is saved of a job at a time.
use mp_model::{Query, Time};
use std::marker::Model;

/// What a stage keeps of a key.
#[derive(Drop)]
pub struct KeyCell<C> {
    /// From 0.
    pub stage: u32,
    /// At most 2^48.
    pub key: u64,
    /// The key's cell in the stage.
    pub cell: C,
}

/// A time at which a key is to be woken in a stage. Contracts see a saved wake.
#[derive(Clone, Copy)]
pub struct KeyWake {
    /// From 0.
    pub stage: u32,
    /// At most 2^48.
    pub key: u64,
    /// In units of the event file.
    pub time: Time,
}

/// A time, and the cells and wakes that are left just before it. Contracts see the three.
#[derive(Drop)]
pub struct Checkpoint<Q: Query> {
    /// In units of the event file.
    pub time: Time,
    /// By stage, and then by key.
    pub cells: Vec<KeyCell<Q::Cell>>,
    /// By stage, then by key, and then by time.
    pub wakes: Vec<KeyWake>,
}

impl Model for KeyWake {
    ghost use Rattle.mp_model.specs.Facts.{SavedWake};

    ghost Value = { SavedWake };

    ghost view = { λ w. record { stage = w.stage; key = w.key; time = w.time } };

    ghost inverse = { λ w. record { stage = w.stage; key = w.key; time = w.time } };
}

impl<Q: Query> Model for Checkpoint<Q> {
    ghost use Rattle.mp_opening.specs.Checkpoints.{CheckpointOf};

    ghost Value = { CheckpointOf Q.Cell };

    ghost view = { λ c. record { time = c.time; cells = c.cells.items; wakes = c.wakes.items } };
}
