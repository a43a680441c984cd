//! Events from a seed.
ghost use Rattle.std.specs.Prelude.{◌≡◌, ◌≤◌, IfOk};
ghost use Rattle.mp_model.specs.Legal.{EventsAreLegal};
ghost use Rattle.mp_model.specs.Plain.{EventsArePlain};
ghost use Rattle.mp_names.specs.Limits.{most_events};
ghost use Rattle.mp_make.specs.Made.{made_events};

use crate::choosing::event_at;
use mp_draws::Draws;
use mp_model::Event;
use std::alloc::{AllocError, Global};

/// So many events from a seed: the same for the same two numbers. Up to 1,000,000 they are such as an event file can say.
/// No name has a `|` or a line feed. `AllocError`: no memory.
pub fn make_events(alloc: Global, count: u32, seed: u64) -> Result<Vec<Event>, AllocError>
    ensures made { IfOk result (λ events. events.items ≡ made_events count seed) }
    ensures legal { count ≤ most_events → IfOk result (λ events. EventsAreLegal events.items) }
    ensures plain { IfOk result (λ events. EventsArePlain events.items) }
{
    let mut events = Vec::with_capacity(alloc, count as usize)?;
    let mut draws = Draws::of(seed);
    for index in 0..count {
        events.push(event_at(alloc, index, &mut draws)?)?;
    }
    Ok(events)
}
