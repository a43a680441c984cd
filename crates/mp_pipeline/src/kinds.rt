//! The kinds of events.
ghost use Rattle.std.specs.Prelude.{◌≡◌};
ghost use Rattle.mp_pipeline.specs.Records.{is_of_kind};

use mp_model::Value;

/// The kind of the events that go into a pipeline.
#[derive(Clone, Copy)]
pub enum EventKind {
    /// Persons, with 2 fields: time, id.
    Person,
    /// Auctions, with 6 fields: time, id, seller, category, reserve, expires.
    Auction,
    /// Bids, with 4 fields: time, auction, bidder, price.
    Bid,
}

impl EventKind {
    /// Whether a value is that of an event of this kind.
    pub(crate) fn has(self, value: &Value) -> bool
        ensures { result ≡ is_of_kind self value.now }
    {
        match value {
            Value::Person { .. } => matches!(self, EventKind::Person),
            Value::Auction { .. } => matches!(self, EventKind::Auction),
            Value::Bid { .. } => matches!(self, EventKind::Bid),
            _ => false,
        }
    }
}
