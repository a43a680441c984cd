//! The event that a text begins with, where its line is as lines mostly are.
ghost use Rattle.std.specs.Prelude.{◌∷◌, IfOk, IfSome};
ghost use Rattle.mp_events.specs.Usual.{BeginsWithEvent};
ghost use Rattle.mp_model.specs.declared.value.Value.TheVariants.{Person};

use crate::usual::{name_before, number_before};
use mp_model::{Event, Text, Value};
use mp_names::limits::{MAX_ID, MAX_PRICE, MAX_TIME};
use std::alloc::{AllocError, Global};

const BAR: u8 = b'|';

const LINE_FEED: u8 = b'\n';

/// An event at the beginning of a text.
#[derive(Drop)]
pub struct FoundEvent<'a> {
    /// It.
    pub event: Event,
    /// What follows the line feed that ends its line.
    pub rest: &'a [u8],
}

/// The event whose line a text begins with, if that is so far as lines mostly are. `AllocError`: no memory.
pub fn event_before<'a>(alloc: Global, text: &'a [u8]) -> Result<Option<FoundEvent<'a>>, AllocError>
    ensures { IfOk result (λ found. IfSome found (λ f. BeginsWithEvent text.now f.event f.rest.now)) }
{
    match text {
        [b'B', b'|', rest @ ..] => Ok(bid_before(rest)),
        [b'A', b'|', rest @ ..] => Ok(auction_before(rest)),
        [b'P', b'|', rest @ ..] => person_before(alloc, rest),
        _ => Ok(None),
    }
}

// The bid whose fields behind its kind a text begins with.
fn bid_before<'a>(text: &'a [u8]) -> Option<FoundEvent<'a>>
    ensures { IfSome result (λ f. BeginsWithEvent (66 ∷ 124 ∷ text.now) f.event f.rest.now) }
{
    let time = number_before(text, BAR, MAX_TIME)?;
    let auction = number_before(time.rest, BAR, MAX_ID)?;
    let bidder = number_before(auction.rest, BAR, MAX_ID)?;
    let price = number_before(bidder.rest, LINE_FEED, MAX_PRICE)?;
    let value = Value::Bid {
        auction: auction.value,
        bidder: bidder.value,
        price: price.value,
    };
    Some(FoundEvent {
        event: Event {
            time: time.value,
            value,
        },
        rest: price.rest,
    })
}

// The auction.
fn auction_before<'a>(text: &'a [u8]) -> Option<FoundEvent<'a>>
    ensures { IfSome result (λ f. BeginsWithEvent (65 ∷ 124 ∷ text.now) f.event f.rest.now) }
{
    let time = number_before(text, BAR, MAX_TIME)?;
    let id = number_before(time.rest, BAR, MAX_ID)?;
    let seller = number_before(id.rest, BAR, MAX_ID)?;
    let category = number_before(seller.rest, BAR, MAX_ID)?;
    let reserve = number_before(category.rest, BAR, MAX_PRICE)?;
    let expires = number_before(reserve.rest, LINE_FEED, MAX_TIME)?;
    if expires.value <= time.value {
        return None;
    }
    let value = Value::Auction {
        id: id.value,
        seller: seller.value,
        category: category.value,
        reserve: reserve.value,
        expires: expires.value,
    };
    Some(FoundEvent {
        event: Event {
            time: time.value,
            value,
        },
        rest: expires.rest,
    })
}

// The person. `AllocError`: no memory.
fn person_before<'a>(alloc: Global, text: &'a [u8]) -> Result<Option<FoundEvent<'a>>, AllocError>
    ensures { IfOk result (λ found. IfSome found (λ f. BeginsWithEvent (80 ∷ 124 ∷ text.now) f.event f.rest.now)) }
{
    let Some(found) = parts_of_person(text) else {
        return Ok(None);
    };
    let value = Value::Person {
        id: found.id,
        name: Text::new(alloc, found.name)?,
        city: Text::new(alloc, found.city)?,
        state: Text::new(alloc, found.state)?,
    };
    let event = Event {
        time: found.time,
        value,
    };
    Ok(Some(FoundEvent {
        event,
        rest: found.rest,
    }))
}

// The fields of a person, and what follows its line.
#[derive(Clone, Copy)]
struct PersonParts<'a> {
    time: u64,
    id: u64,
    name: &'a [u8],
    city: &'a [u8],
    state: &'a [u8],
    rest: &'a [u8],
}

// The fields behind its kind with which a text begins.
fn parts_of_person<'a>(text: &'a [u8]) -> Option<PersonParts<'a>>
    ensures { IfSome result (λ p. BeginsWithEvent (80 ∷ 124 ∷ text.now)
        (record { time = p.time; value = Person p.id p.name.now p.city.now p.state.now }) p.rest.now) }
{
    let time = number_before(text, BAR, MAX_TIME)?;
    let id = number_before(time.rest, BAR, MAX_ID)?;
    let name = name_before(id.rest, BAR)?;
    let city = name_before(name.rest, BAR)?;
    let state = name_before(city.rest, LINE_FEED)?;
    Some(PersonParts {
        time: time.value,
        id: id.value,
        name: name.name,
        city: city.name,
        state: state.name,
        rest: state.rest,
    })
}
