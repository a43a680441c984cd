//! Events of the tests: bids of 100 by bidder 1, nearly all on auction 7; and control records.
ghost use Rattle.std.specs.Prelude.{◌≡◌, ◌≤◌, IfOk, length};
ghost use Rattle.mp_names.specs.Limits.{most_controls, most_events};
ghost use Rattle.mp_model.specs.Legal.{EventIsLegal, EventsAreLegal};
ghost use Rattle.mp_job.specs.Legal.{ControlFits, ControlsFit};
ghost use Rattle.mp_samples.specs.Events.{bid_at};
ghost use Rattle.mp_samples.specs.Jobs.{record_of_bid, three_workers, to_worker_two};

use mp_model::{Control, Event, Rec, Tag, Time, Value};
use std::alloc::{AllocError, Global};

/// A bid on auction 7.
pub fn bid_at(time: u32) -> Event
    ensures bid { result ≡ bid_at time }
    ensures legal { EventIsLegal result }
{
    Event {
        time: Time::from(time),
        value: Value::Bid {
            auction: 7,
            bidder: 1,
            price: 100,
        },
    }
}

/// Bids on auction 7, each at its time. `AllocError`: no memory.
pub fn bids_at(alloc: Global, times: &[u32]) -> Result<Vec<Event>, AllocError>
    requires { length times.now ≤ most_events }
    ensures { IfOk result (λ v. EventsAreLegal v.items) }
{
    let mut events = Vec::new(alloc);
    for time in times {
        events.push(bid_at(*time))?;
    }
    Ok(events)
}

/// A bid on auction 7, or an auction, which makes no record.
pub fn event_at(time: u32, is_bid: bool) -> Event
    ensures { EventIsLegal result }
{
    if is_bid {
        return bid_at(time);
    }
    let time = Time::from(time);
    Event {
        time,
        value: Value::Auction {
            id: 7,
            seller: 1,
            category: 1,
            reserve: 1,
            expires: time + 1,
        },
    }
}

/// Bids and auctions, each at its time. `AllocError`: no memory.
pub fn events_of(alloc: Global, table: &[(u32, bool)]) -> Result<Vec<Event>, AllocError>
    requires { length table.now ≤ most_events }
    ensures { IfOk result (λ v. EventsAreLegal v.items) }
{
    let mut events = Vec::new(alloc);
    for (time, is_bid) in table {
        events.push(event_at(*time, *is_bid))?;
    }
    Ok(events)
}

/// Control records that give bin 3 to worker 2, each at its time. `AllocError`: no memory.
pub fn controls_at(alloc: Global, times: &[u32]) -> Result<Vec<Control>, AllocError>
    requires { length times.now ≤ most_controls }
    ensures { IfOk result (λ v. ControlsFit three_workers v.items) }
{
    let mut controls = Vec::new(alloc);
    for time in times {
        controls.push(Control {
            time: Time::from(*time),
            stage: 0,
            bin: 3,
            worker: 2,
        })?;
    }
    Ok(controls)
}

/// The record of a bid on auction 7 at 5, which is the first event.
pub fn record_of_bid() -> Rec
    ensures { result ≡ record_of_bid }
{
    Rec {
        time: 5,
        key: 7,
        tag: Tag(0, 0),
        value: bid_at(5).value,
    }
}

/// The control record that gives the bin of auction 7, of four bins, to worker 2 at 10.
pub fn to_worker_two() -> Control
    ensures { result ≡ to_worker_two }
{
    Control {
        time: 10,
        stage: 0,
        bin: 1,
        worker: 2,
    }
}
