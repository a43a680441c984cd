//! Ways to read an event file.
ghost use Rattle.std.specs.Prelude.{◌≡◌, ◌≤◌, All, Ok, Err, IfOk, IfErr, vec_len};
ghost use Rattle.mp_events.specs.Events.{events_of};
ghost use Rattle.mp_lines.specs.Refusals.{IfBadLine};
ghost use Rattle.mp_model.specs.Legal.{EventIsLegal};
ghost use Rattle.mp_model.specs.Plain.{EventsArePlain};
ghost use Rattle.mp_names.specs.Limits.{most_events};

use crate::EventsRefused;
use crate::reading::read_events;
use mp_model::Event;
use std::alloc::Global;

/// A way to read an event file.
pub trait EventReading {
    /// As the function [`read_events`].
    fn read_events(&self, alloc: Global, text: &[u8]) -> Result<Vec<Event>, EventsRefused>
        ensures events { IfOk result (λ events. events_of text.now ≡ Ok events.items) }
        ensures legal { IfOk result (λ events. All EventIsLegal events.items) }
        ensures few { IfOk result (λ events. vec_len events ≤ most_events) }
        ensures plain { IfOk result (λ events. EventsArePlain events.items) }

        ensures bad_line { IfErr result (λ refused.
            IfBadLine refused (λ line why. events_of text.now ≡ Err (line, why))) };
}

/// On the thread of the caller.
#[derive(Clone, Copy)]
pub struct OnOneThread;

impl EventReading for OnOneThread {
    fn read_events(&self, alloc: Global, text: &[u8]) -> Result<Vec<Event>, EventsRefused> {
        read_events(alloc, text)
    }
}
