//! Where things were found lately.
ghost use Rattle.std.specs.Prelude.{◌≡◌, ◌<◌, All, get_or, slice_set};
ghost use Rattle.mp_stamps.specs.Hints.{slot_of};

use std::marker::Model;

// How many are remembered.
const SLOTS: usize = 2048;

/// The indices at which some things were found last, by a number of each. They are no more than hints: an index may be of
/// another thing by now, or of none, so whoever follows one looks at what stands there. Contracts see the list of indices.
#[derive(Drop)]
pub struct Hints {
    indices: [usize; SLOTS],
}

impl Model for Hints {
    ghost use Rattle.std.specs.Prelude.{◌≡◌, ℕ, List, length};

    ghost Value = { List ℕ };

    ghost view = { λ h. h.indices };

    ghost invariant = { λ h. length h.indices ≡ 2048 };
}

impl Hints {
    /// Nothing was found yet.
    pub fn new() -> Hints
        ensures { All (λ index. index ≡ 0) result }
    {
        Hints {
            indices: [0; SLOTS],
        }
    }

    /// An index at which the thing of this number may stand.
    pub fn near(&self, number: u64) -> usize
        ensures { result ≡ get_or self.now (slot_of number) 0 }
    {
        self.indices[slot_of(number)]
    }

    /// The thing of this number was found at an index.
    pub fn note(&mut self, number: u64, index: usize)
        ensures { self.new ≡ slice_set self.old (slot_of number) index }
    {
        self.indices[slot_of(number)] = index;
    }
}

// Where the index of the thing of this number is remembered.
fn slot_of(number: u64) -> usize
    ensures is { result ≡ slot_of number }
    ensures inside { result < 2048 }
{
    (number % SLOTS as u64) as usize
}
