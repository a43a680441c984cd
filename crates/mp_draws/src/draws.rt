//! Draws from a seed.
ghost use Rattle.std.specs.Prelude.{◌≡◌, ◌<◌};
ghost use Rattle.mp_draws.specs.Draws.{first_state, next_state};

use std::marker::Model;

/// Draws from a seed: each is the one before times 48,271, modulo 2^31 - 1 (a generator of Lehmer's, this
/// project's profile). Contracts see the last draw.
#[derive(Drop)]
pub struct Draws {
    state: u64,
}

impl Model for Draws {
    ghost use Rattle.std.specs.Prelude.{ℕ, ◌<◌};

    ghost Value = { ℕ };

    ghost view = { λ d. d.state };

    ghost invariant = { λ d. d.state < 2147483647 };
}

impl Draws {
    /// The draws of a seed.
    pub fn of(seed: u64) -> Draws
        ensures { result ≡ first_state seed }
    {
        Draws {
            state: 1 + seed % 2_147_483_646,
        }
    }

    /// The next draw, below 2^31 - 1.
    pub fn draw(&mut self) -> u64
        ensures draw { result ≡ next_state self.old }
        ensures state { self.new ≡ result }
        ensures below { result < 2147483647 }
    {
        self.state = self.state * 48_271 % 2_147_483_647;
        self.state
    }
}
