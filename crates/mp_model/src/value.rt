//! What an event, a record or an output holds.
ghost use Rattle.std.specs.Prelude.{◌≡◌};

use crate::{Fields, Text, Time};
use std::alloc::AllocError;

/// What an event, a record or an output of a stage holds. Persons, auctions and bids are those of NEXMark; the limits of
/// their numbers are this project's profile: ids, sellers, categories, auctions and bidders at most 2^48, reserves and
/// prices at most 10^12, `expires` at most 2^47.
#[derive(Drop)]
pub enum Value {
    /// A person who may sell or bid.
    Person {
        id: u64,
        name: Text,
        city: Text,
        state: Text,
    },
    /// An auction that a seller opens. It closes at the time `expires`.
    Auction {
        id: u64,
        seller: u64,
        category: u64,
        reserve: u64,
        expires: Time,
    },
    /// A bid on an auction.
    Bid {
        auction: u64,
        bidder: u64,
        price: u64,
    },
    /// A closed auction's price, for its category or its seller.
    Sale {
        of: u64,
        price: u64,
    },
    /// How many bids an auction had.
    Count {
        auction: u64,
        count: u64,
    },
    /// An answer row without its time.
    Row(Fields),
}

impl Clone for Value {
    ghost is_clone = { λ value copy. copy ≡ value };

    fn clone(&self) -> Result<Value, AllocError> {
        match self {
            Value::Person {
                id,
                name,
                city,
                state,
            } => Ok(Value::Person {
                id: *id,
                name: name.clone()?,
                city: city.clone()?,
                state: state.clone()?,
            }),
            Value::Auction {
                id,
                seller,
                category,
                reserve,
                expires,
            } => Ok(Value::Auction {
                id: *id,
                seller: *seller,
                category: *category,
                reserve: *reserve,
                expires: *expires,
            }),
            Value::Bid {
                auction,
                bidder,
                price,
            } => Ok(Value::Bid {
                auction: *auction,
                bidder: *bidder,
                price: *price,
            }),
            Value::Sale { of, price } => Ok(Value::Sale {
                of: *of,
                price: *price,
            }),
            Value::Count { auction, count } => Ok(Value::Count {
                auction: *auction,
                count: *count,
            }),
            Value::Row(fields) => Ok(Value::Row(fields.clone()?)),
        }
    }
}
