//! A thread that a worker is on.
ghost use Rattle.std.specs.Prelude.{◌≡◌};
ghost use Rattle.mp_outline.specs.JobOutline.{outline_of};
ghost use Rattle.mp_threads_place.specs.Places.{IsBack};
ghost use Rattle.mp_model.specs.Tables.{table_of};

use crate::back::{Back, Marked};
use mp_model::{Naming, Query};
use mp_threads_member::Member;
use std::marker::{Model, PhantomData};
use std::thread::{PromisedHandle, Threads};

/// A thread that a worker is on. Contracts see the worker's mark.
pub struct Handle<'a, Q: Query, J: Naming, R: Drop> {
    inner: PromisedHandle<Back<Member<'a, Q, J, R>>, Marked>,
    // The thread borrows the job of this query.
    job: PhantomData<&'a Q>,
}

impl<'a, Q: Query, J: Naming, R: Drop> Model for Handle<'a, Q, J, R> {
    ghost use Rattle.mp_threads_place.specs.declared.back.Marked.{Marked};

    ghost Value = { Marked };

    ghost view = { λ h. h.inner.promise };
}

impl<'a, Q: Query, J: Naming, R: Drop> Drop for Handle<'a, Q, J, R> {
    fn drop(self) {
        let Handle { inner, job: _ } = self;
        drop(inner.forget_promise());
    }
}

impl<'a, Q: Query, J: Naming, R: Drop> Handle<'a, Q, J, R> {
    /// The handle of a thread that promised this.
    pub(crate) fn new(
        inner: PromisedHandle<Back<Member<'a, Q, J, R>>, Marked>,
    ) -> Handle<'a, Q, J, R>
        ensures { result ≡ inner.entry.promise }
    {
        Handle {
            inner,
            job: PhantomData,
        }
    }

    /// Waits for the thread.
    pub(crate) fn join<T: Threads>(self, rt: &T) -> Back<Member<'a, Q, J, R>>
        ensures { IsBack (outline_of (table_of Q.facts J.job) J.job) self.entry result }
    {
        let Handle { inner, job: _ } = self;
        inner.join(rt)
    }
}
