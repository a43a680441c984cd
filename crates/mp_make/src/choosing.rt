//! What the draws of one event choose.
ghost use Rattle.std.specs.Prelude.{◌≡◌, ◌≤◌, ◌<◌, ◌+◌, ◌*◌, ◌/◌, ◌%◌, ◌^◌, ◌∷◌, IfOk};
ghost use Rattle.std.specs.Fmt.{decimal};
ghost use Rattle.mp_make.specs.Made.{auction_at, bid_at, event_at, person_at, state_text, time_by};

use mp_draws::Draws;
use mp_model::{Event, Text, Value};
use mp_text::put_number;
use std::alloc::{AllocError, Global};

/// The event of an index: of every ten events one is a person, two are auctions, seven are bids. `AllocError`: no memory.
pub fn event_at(alloc: Global, index: u32, draws: &mut Draws) -> Result<Event, AllocError>
    ensures event { IfOk result (λ event. event ≡ (event_at index draws.old).0) }
    ensures draws { IfOk result (λ _. draws.new ≡ (event_at index draws.old).1) }
{
    match index % 10 {
        0 => person_at(alloc, index, draws),
        1 | 2 => Ok(auction_at(index, draws)),
        _ => Ok(bid_at(index, draws)),
    }
}

// The person of a ten.
fn person_at(alloc: Global, index: u32, draws: &mut Draws) -> Result<Event, AllocError>
    ensures event { IfOk result (λ event. event ≡ (person_at index draws.old).0) }
    ensures draws { IfOk result (λ _. draws.new ≡ (person_at index draws.old).1) }
{
    let time = time_by(index, draws.draw());
    let state = state_text(draws.draw() % 6);
    let city = draws.draw() % 10;
    let ten = u64::from(index / 10);
    Ok(Event {
        time,
        value: Value::Person {
            id: ten,
            name: numbered(alloc, b'p', ten)?,
            city: numbered(alloc, b'c', city)?,
            state: Text::new(alloc, state)?,
        },
    })
}

// One of the two auctions of a ten.
fn auction_at(index: u32, draws: &mut Draws) -> Event
    requires { 0 < index % 10 }
    ensures event { result ≡ (auction_at index draws.old).0 }
    ensures draws { draws.new ≡ (auction_at index draws.old).1 }
{
    let time = time_by(index, draws.draw());
    let ten = u64::from(index / 10);
    let seller = draws.draw() % (ten + 1);
    let category = 8 + draws.draw() % 5;
    let reserve = draws.draw() % 100;
    let expires = time + 1 + draws.draw() % 2000;
    Event {
        time,
        value: Value::Auction {
            id: 2 * ten + u64::from(index % 10) - 1,
            seller,
            category,
            reserve,
            expires,
        },
    }
}

// A bid.
fn bid_at(index: u32, draws: &mut Draws) -> Event
    ensures event { result ≡ (bid_at index draws.old).0 }
    ensures draws { draws.new ≡ (bid_at index draws.old).1 }
{
    let time = time_by(index, draws.draw());
    let ten = u64::from(index / 10);
    let auction = draws.draw() % (2 * ten + 2);
    let bidder = draws.draw() % (ten + 1);
    let price = 1 + draws.draw() % 1000;
    Event {
        time,
        value: Value::Bid {
            auction,
            bidder,
            price,
        },
    }
}

// The time of the event of an index, by a draw.
fn time_by(index: u32, draw: u64) -> u64
    ensures value { result ≡ time_by index draw }
    ensures small { result < 2 ^ 40 }
{
    5 * u64::from(index) + draw % 20
}

// The text of a state by its number.
fn state_text(number: u64) -> &'static [u8]
    ensures { result.now ≡ state_text number }
{
    match number {
        0 => b"OR",
        1 => b"ID",
        2 => b"CA",
        3 => b"NY",
        4 => b"WA",
        _ => b"TX",
    }
}

// A letter with a number after it.
fn numbered(alloc: Global, letter: u8, number: u64) -> Result<Text, AllocError>
    ensures { IfOk result (λ text. text ≡ letter ∷ decimal number) }
{
    let mut bytes = Vec::new(alloc);
    bytes.push(letter)?;
    put_number(&mut bytes, number)?;
    Text::new(alloc, bytes.as_slice())
}
