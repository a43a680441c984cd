//! The record of an event.
ghost use Rattle.std.specs.Prelude.{◌≡◌, ◌≤◌, IfOk};
ghost use Rattle.mp_names.specs.Limits.{last_time};
ghost use Rattle.mp_model.specs.Stages.{record_of};
ghost use Rattle.mp_job.specs.Parts.{table_in};

use crate::source::Source;
use mp_model::{Event, Query, Rec, Tag};
use std::alloc::AllocError;

/// The record of the event of this index, if it makes one. `AllocError`: no memory for its value.
pub fn record_of<Q: Query>(
    source: &Source<Q>,
    index: u32,
    event: &Event,
) -> Result<Option<Rec>, AllocError>
    requires { event.now.time ≤ last_time }
    ensures { IfOk result (λ rec. rec ≡ record_of (table_in Q.facts Q.text_of (Q.values source.now.query) source.now.stop source.now.opening) index event.now) }
{
    match source.key(event) {
        Some(key) => Ok(Some(Rec {
            time: event.time,
            key,
            tag: Tag(0, u64::from(index)),
            value: event.value.clone()?,
        })),
        None => Ok(None),
    }
}
