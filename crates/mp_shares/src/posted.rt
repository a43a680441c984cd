//! The times that records post, as they are gathered.
ghost use Rattle.std.specs.Prelude.{◌≡◌, ◌++◌, [], IsTrue, ◌↔◌, OnOk};
ghost use Rattle.mp_shares.specs.Times.{AllStandIn, HoldSame};

use mp_model::{PostList, Time};
use std::alloc::{AllocError, Global};
use std::marker::Model;

/// The times that records post, and what the last of them posted, which stands among these. Contracts see a
/// `PostedTimes`.
pub struct Posted {
    times: Vec<Time>,
    last: PostList,
}

// By hand, so that crates above call it and don't write out the drop of each field.
impl Drop for Posted {
    fn drop(self) {
        let Posted { times: _, last: _ } = self;
    }
}

impl Model for Posted {
    ghost use Rattle.mp_shares.specs.Times.{AllStandIn, PostedTimes};

    ghost Value = { PostedTimes };

    ghost view = { λ p. record { times = p.times.items; last = p.last } };

    ghost invariant = { λ p. AllStandIn p.last p.times.items };
}

impl Posted {
    /// None yet.
    pub fn new(alloc: Global) -> Posted
        ensures { result ≡ record { times = []; last = [] } }
    {
        Posted {
            times: Vec::new(alloc),
            last: PostList::new(),
        }
    }

    /// Whether these are what the last record posted.
    pub fn is_last(&self, posts: &PostList) -> bool
        ensures last { IsTrue result ↔ (posts.now ≡ self.now.last) }
        ensures stand { AllStandIn self.now.last self.now.times }
    {
        posts.as_slice() == self.last.as_slice()
    }

    /// Adds what a record posts. `AllocError`: no memory.
    pub fn add(&mut self, posts: PostList) -> Result<(), AllocError>
        ensures { OnOk result (self.new ≡ record { times = self.old.times ++ posts; last = posts }) }
    {
        // Whatever a failure leaves there, nothing is claimed of it.
        self.last = PostList::new();
        self.times.extend_from_slice(posts.as_slice())?;
        self.last = posts;
        Ok(())
    }

    /// The times, some of them more than once.
    pub fn into_times(self) -> Vec<Time>
        ensures { result.items ≡ self.times }
    {
        let Posted { times, last: _ } = self;
        times
    }
}

/// Adds posts to these and to the times, unless they are those that were added last: neighbours in one window post the same.
/// `AllocError`: no memory.
pub fn add_posts(
    posts: PostList,
    posted: &mut Posted,
    times: &mut Vec<Time>,
) -> Result<(), AllocError>
    requires { AllStandIn posted.old.last times.old.items }
    ensures times { OnOk result (HoldSame times.new.items (times.old.items ++ posts)) }
    ensures posts { OnOk result (HoldSame posted.new.times (posted.old.times ++ posts)) }
    ensures posted { OnOk result (AllStandIn posted.new.last times.new.items) }
{
    if posted.is_last(&posts) {
        return Ok(());
    }
    times.extend_from_slice(posts.as_slice())?;
    posted.add(posts)?;
    Ok(())
}
