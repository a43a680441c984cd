//! The kinds of lines.
ghost use Rattle.std.specs.Prelude.{◌≡◌};
ghost use Rattle.mp_events.specs.Kinds.{kind_of, limits_of};
ghost use Rattle.mp_lines.specs.Checks.{field_at};

use mp_lines::{FieldLimit, NumberLimit};
use mp_names::limits::{MAX_ID, MAX_NAME, MAX_PRICE, MAX_TIME};
use mp_text::FieldList;

/// What a line says.
#[derive(Clone, Copy)]
pub enum LineKind {
    /// A person: time, id, name, city, state.
    Person,
    /// An auction: time, id, seller, category, reserve, expires.
    Auction,
    /// A bid: time, auction, bidder, price.
    Bid,
}

const TIME: FieldLimit = FieldLimit::NumberWithin(NumberLimit::UpTo(MAX_TIME));

const ID: FieldLimit = FieldLimit::NumberWithin(NumberLimit::UpTo(MAX_ID));

const PRICE: FieldLimit = FieldLimit::NumberWithin(NumberLimit::UpTo(MAX_PRICE));

const NAME: FieldLimit = FieldLimit::NameUpTo(MAX_NAME);

const PERSON: [FieldLimit; 5] = [TIME, ID, NAME, NAME, NAME];

const AUCTION: [FieldLimit; 6] = [TIME, ID, ID, ID, PRICE, TIME];

const BID: [FieldLimit; 4] = [TIME, ID, ID, PRICE];

impl LineKind {
    /// The kind that a line says in its first field, if it says one.
    pub fn of(fields: &FieldList) -> Option<LineKind>
        ensures { result ≡ kind_of (field_at fields.now 0) }
    {
        match fields.get(0)? {
            [b'P'] => Some(LineKind::Person),
            [b'A'] => Some(LineKind::Auction),
            [b'B'] => Some(LineKind::Bid),
            _ => None,
        }
    }

    /// The limits of the fields after the kind, from left to right.
    pub fn limits(self) -> &'static [FieldLimit]
        ensures limits { result.now ≡ limits_of self }
    {
        match self {
            LineKind::Person => &PERSON,
            LineKind::Auction => &AUCTION,
            LineKind::Bid => &BID,
        }
    }
}
