//! Which records each worker takes in.
ghost use Rattle.std.specs.Prelude.{◌≡◌, ◌<◌, ◌++◌, ◌∷◌, [], IfOk, OnOk, length, map};
ghost use Rattle.std.specs.List.{range_with_len};
ghost use Rattle.mp_shares.specs.Records.{with_index};

use std::alloc::{AllocError, Global};
use std::marker::Model;

/// The indices of the events that a worker takes in, ascending. Contracts see the list of them.
pub struct Share {
    indices: Vec<u32>,
}

// By hand, so that crates above call it and don't write out the drop of its list.
impl Drop for Share {
    fn drop(self) {
        let Share { indices: _ } = self;
    }
}

impl Model for Share {
    ghost use Rattle.std.specs.Prelude.{ℕ, List};

    ghost Value = { List ℕ };

    ghost view = { λ s. s.indices.items };
}

impl Share {
    /// A share of no events.
    pub fn new(alloc: Global) -> Share
        ensures { result ≡ [] }
    {
        Share {
            indices: Vec::new(alloc),
        }
    }

    /// Adds an index at the end. `AllocError`: no memory.
    pub fn push(&mut self, index: u32) -> Result<(), AllocError>
        ensures { OnOk result (self.new ≡ self.old ++ index ∷ []) }
    {
        self.indices.push(index)?;
        Ok(())
    }

    /// The indices, ascending.
    pub fn as_slice(&self) -> &[u32]
        ensures { result.now ≡ self.now }
    {
        self.indices.as_slice()
    }
}

/// A share of no events for each worker. `AllocError`: no memory.
pub fn empty_shares(alloc: Global, workers: u32) -> Result<Vec<Share>, AllocError>
    ensures { IfOk result (λ v. v.items ≡ map (λ _. []) (range_with_len 0 workers)) }
{
    let mut shares = Vec::new(alloc);
    for _ in 0..workers {
        shares.push(Share::new(alloc))?;
    }
    Ok(shares)
}

/// Puts an index into the share of its worker. `AllocError`: no memory.
pub fn add_index(shares: &mut [Share], index: u32) -> Result<(), AllocError>
    requires { 0 < length shares.old }
    ensures { OnOk result (shares.new ≡ with_index index shares.old) }
{
    let worker = index as usize % shares.len();
    shares[worker].push(index)
}
