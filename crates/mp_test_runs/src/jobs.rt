//! Jobs of made events, whose bins move.
ghost use Rattle.std.specs.Prelude.{◌<◌, ◌≤◌, IfOk};
ghost use Rattle.mp_model.specs.Legal.{EventsAreLegal};

use crate::refused::Refused;
use mp_control::{RuleList, read_settings};
use mp_job::{Event, Job};
use mp_make::make_events;
use mp_names::Shape;
use mp_q_auction::Q4;
use std::alloc::{AllocError, Global};

/// So many events, made from a seed. `AllocError`: no memory.
pub fn made(alloc: Global, count: u32, seed: u64) -> Result<Vec<Event>, AllocError>
    requires { count ≤ 1000000 }
    ensures { IfOk result (λ events. EventsAreLegal events.items) }
{
    make_events(alloc, count, seed)
}

/// The job of q4 over these events with 32 bins, which move by the lines of a configuration.
pub fn job_by(
    alloc: Global,
    events: Vec<Event>,
    config: &[u8],
    workers: u32,
) -> Result<Job<Q4>, Refused>
    requires events { EventsAreLegal events.items }
    requires some_worker { 0 < workers }
    requires few_workers { workers ≤ 64 }
{
    let shape = Shape {
        workers,
        bins: 32,
        stages: 2,
    };
    let settings = read_settings(alloc, config, &shape, &RuleList::new())?;
    let job = Job::new(alloc, Q4::given(), events, settings.controls, shape)?;
    Ok(job)
}
