//! The times at which a record wakes its key.
ghost use Rattle.std.specs.Prelude.{◌≡◌, ◌<◌, ◌++◌, ◌∷◌, [], length};

use crate::Time;
use mp_short::ShortList;
use std::marker::Model;

/// At most six times, in order. Contracts see the list of them.
pub struct PostList {
    times: ShortList<Time, 6>,
}

// By hand, so that crates above call it and don't write out the drop of each field.
impl Drop for PostList {
    fn drop(self) {
        let PostList { times: _ } = self;
    }
}

impl Model for PostList {
    ghost use Rattle.std.specs.Prelude.{ℕ, List};

    ghost Value = { List ℕ };

    ghost view = { λ p. p.times };
}

impl PostList {
    /// No times.
    pub fn new() -> PostList
        ensures { result ≡ [] }
    {
        PostList {
            times: ShortList::new(0),
        }
    }

    /// Adds a time at the end.
    pub fn push(&mut self, time: Time)
        requires { length self.old < 6 }
        ensures { self.new ≡ self.old ++ time ∷ [] }
    {
        self.times.push(time);
    }

    /// The times, in order.
    pub fn as_slice(&self) -> &[Time]
        ensures { result.now ≡ self.now }
    {
        self.times.as_slice()
    }
}
