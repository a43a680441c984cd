//! What holds of the lines of events, as the contract of a function that does nothing.
ghost use Rattle.mp_events.specs.Written.{WrittenEventsAreRead};

/// A file of the lines of events is read as these events: up to 1,000,000 that are within their limits, whose names have no `|`
/// and no line feed, and none whose state ends with a carriage return.
pub fn written_events_are_read()
    ensures { WrittenEventsAreRead }
{}
