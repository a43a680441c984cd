//! How much one call of a fake gives or takes.
ghost use Rattle.std.specs.Prelude.{◌≡◌, ◌<◌, ◌-◌, ◌^◌, ℕ, min};

use std::marker::Model;

/// How many bytes one call of a fake gives or takes at most: at least one.
#[derive(Drop)]
pub struct Portion {
    most: u64,
}

impl Model for Portion {
    ghost Value = { ℕ };

    ghost view = { λ portion. portion.most };

    ghost invariant = { λ portion. 0 < portion.most };
}

impl Portion {
    /// Whatever a call is asked for.
    pub fn whole() -> Portion
        ensures { result ≡ 2 ^ 64 - 1 }
    {
        Portion { most: u64::MAX }
    }

    /// No more than so many bytes.
    pub fn at_most(most: u64) -> Portion
        requires { 0 < most }
        ensures { result ≡ most }
    {
        Portion { most }
    }

    /// How many bytes of so many.
    pub fn of(&self, len: usize) -> usize
        ensures part { result ≡ min len self.now }
        ensures some { 0 < len → 0 < result }
    {
        (len as u64).min(self.most) as usize
    }
}
