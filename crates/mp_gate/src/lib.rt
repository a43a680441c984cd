//! Layer: text, files and collections.
//!
//! A gate that workers pass before they make a step. It changes nothing of the product's: a test can
//! watch there, or hold a worker back, without a body of its own for the product.
#![tactic(auto)]

pub use mp_names::Kind;

/// What a worker passes just before it makes a step.
pub trait Gate {
    /// Worker `worker` is about to make a step of kind `kind`. It returns; whatever else it does, the step
    /// that follows is the same.
    fn pass(&self, worker: u32, kind: Kind);
}

/// The gate that holds nobody back: it returns at once.
#[derive(Clone, Copy, Drop)]
pub struct OpenGate;

impl Gate for OpenGate {
    fn pass(&self, _worker: u32, _kind: Kind) {}
}
