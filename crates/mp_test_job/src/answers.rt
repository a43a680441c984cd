//! Answers on one thread: in order of time, key and place, and through two stages.
ghost use Rattle.std.specs.Prelude.{◌≤◌, IfOk};
ghost use Rattle.mp_names.specs.Limits.{greatest_id, greatest_price, greatest_time};
ghost use Rattle.mp_model.specs.Legal.{EventIsLegal, EventsAreLegal};

use mp_fold::{answer_pieces, answer_rows, stage_records};
use mp_model::{Event, Query, Tag, Text, Time, Value};
use mp_q_auction::Q4;
use mp_q_join::Q3;
use mp_q_simple::Q1;
use std::alloc::{AllocError, Global};
use std::process::Abort;

/// A bid.
fn bid_at(time: Time, auction: u64, bidder: u64, price: u64) -> Event
    requires time { time ≤ greatest_time }
    requires auction { auction ≤ greatest_id }
    requires bidder { bidder ≤ greatest_id }
    requires price { price ≤ greatest_price }
    ensures { EventIsLegal result }
{
    let value = Value::Bid {
        auction,
        bidder,
        price,
    };
    Event { time, value }
}

/// The pieces are these texts.
fn are_texts(rt: &impl Abort, pieces: &[Vec<u8>], wanted: &[&[u8]]) {
    assert!(rt; pieces.len() == wanted.len());
    for (piece, text) in pieces.iter().zip(wanted) {
        assert!(rt; piece.as_slice() == *text);
    }
}

/// The query answers these events by these lines, a text for each time.
fn has_pieces<Q: Query>(
    rt: &impl Abort,
    alloc: Global,
    query: &Q,
    events: &[Event],
    wanted: &[&[u8]],
) -> Result<(), AllocError>
    requires { EventsAreLegal events.now }
{
    let pieces = answer_pieces(alloc, query, events)?;
    are_texts(rt, pieces.as_slice(), wanted);
    Ok(())
}

#[test]
fn three_bids(rt: HostRuntime) -> Result<(), AllocError> {
    let events = [
        bid_at(5, 7, 2, 100),
        bid_at(3, 7, 1, 250),
        bid_at(5, 2, 9, 99),
    ];
    let wanted = [b"3|7|1|222\n".as_slice(), b"5|2|9|88\n5|7|2|89\n"];
    has_pieces(&rt, rt.alloc(), &Q1::given(), &events, &wanted)
}

fn bids_come(rt: &impl Abort, alloc: Global, events: &[Event]) -> Result<(), AllocError>
    requires { EventsAreLegal events.now }
{
    let bids = stage_records(alloc, &Q4::given(), events, 0)?;
    assert!(rt; bids.len() == 4);
    assert!(rt; bids[2].tag == Tag(0, 2));
    Ok(())
}

fn a_sale_comes(rt: &impl Abort, alloc: Global, events: &[Event]) -> Result<(), AllocError>
    requires { EventsAreLegal events.now }
{
    let sales = stage_records(alloc, &Q4::given(), events, 1)?;
    assert!(rt; sales.len() == 1);
    assert!(rt; sales[0].time == 9 && sales[0].key == 10 && sales[0].tag == Tag(8, 0));
    Ok(())
}

fn a_row_comes(rt: &impl Abort, alloc: Global, events: &[Event]) -> Result<(), AllocError>
    requires { EventsAreLegal events.now }
{
    let rows = answer_rows(alloc, &Q4::given(), events)?;
    assert!(rt; rows.len() == 1);
    assert!(rt; rows[0].tag == Tag(10, 0));
    Ok(())
}

fn goes_through(rt: &impl Abort, alloc: Global, events: &[Event]) -> Result<(), AllocError>
    requires { EventsAreLegal events.now }
{
    bids_come(rt, alloc, events)?;
    a_sale_comes(rt, alloc, events)?;
    a_row_comes(rt, alloc, events)?;
    let wanted = [b"9|10|300\n".as_slice()];
    has_pieces(rt, alloc, &Q4::given(), events, &wanted)
}

#[test]
fn a_row_at_a_wake(rt: HostRuntime) -> Result<(), AllocError> {
    let auction = Event {
        time: 2,
        value: Value::Auction {
            id: 8,
            seller: 5,
            category: 10,
            reserve: 100,
            expires: 9,
        },
    };
    let events = [
        auction,
        bid_at(4, 8, 3, 100),
        bid_at(6, 8, 4, 300),
        bid_at(9, 8, 6, 400),
    ];
    goes_through(&rt, rt.alloc(), &events)
}

/// A person with a name that is no text.
fn person(alloc: Global) -> Result<Event, AllocError>
    ensures { IfOk result EventIsLegal }
{
    let value = Value::Person {
        id: 5,
        name: Text::new(alloc, b"A\xffn")?,
        city: Text::new(alloc, b"Reno")?,
        state: Text::new(alloc, b"OR")?,
    };
    Ok(Event { time: 3, value })
}

#[test]
fn a_name_is_printed_as_its_bytes(rt: HostRuntime) -> Result<(), AllocError> {
    let person = person(rt.alloc())?;
    let auction = Event {
        time: 4,
        value: Value::Auction {
            id: 70,
            seller: 5,
            category: 10,
            reserve: 0,
            expires: 9,
        },
    };
    let wanted = [b"4|A\xffn|Reno|OR|70\n".as_slice()];
    has_pieces(&rt, rt.alloc(), &Q3::given(), &[auction, person], &wanted)
}
