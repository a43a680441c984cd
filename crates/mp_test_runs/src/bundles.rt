//! Records that travel together: seventy of one time and one key, in two messages.
ghost use Rattle.mp_model.specs.Legal.{EventIsLegal};

use crate::script::{Line, Part, follows};
use mp_board::Cause;
use mp_job::{Event, Job, Shape};
use mp_model::Value;
use mp_names::{Frontier, Kind, Loc, Name, Tag};
use mp_q_simple::Q1;
use mp_worker::Turn;
use std::alloc::{AllocError, Global};
use std::marker::Brand;

const SHAPE: Shape = Shape {
    workers: 1,
    bins: 1,
    stages: 1,
};

const RECORDS: u64 = 70;

fn bid() -> Event
    ensures { EventIsLegal result }
{
    Event {
        time: 1,
        value: Value::Bid {
            auction: 1,
            bidder: 1,
            price: 100,
        },
    }
}

fn seventy_bids(alloc: Global) -> Result<Job<Q1>, AllocError> {
    let mut events = Vec::new(alloc);
    for _bid in 0..RECORDS {
        events.push(bid())?;
    }
    let job = Job::new(alloc, Q1::given(), events, Vec::new(alloc), SHAPE)?;
    Ok(job)
}

// The first 64 records, and the others.
const FIRST_BUNDLE: Turn = Turn::Did(
    Name::Rec {
        stage: 0,
        time: 1,
        key: 1,
        tag: Tag(0, 0),
    },
    64,
);

const SECOND_BUNDLE: Turn = Turn::Did(
    Name::Rec {
        stage: 0,
        time: 1,
        key: 1,
        tag: Tag(0, 64),
    },
    6,
);

const GROUP: Turn = Turn::Did(
    Name::Group {
        stage: 0,
        time: 1,
        key: 1,
    },
    1,
);

// Each record is taken in by itself.
fn ingested(alloc: Global) -> Result<Vec<Line>, AllocError> {
    let mut lines = Vec::new(alloc);
    for index in 0..RECORDS {
        let name = Name::Rec {
            stage: 0,
            time: 1,
            key: 1,
            tag: Tag(0, index),
        };
        lines.push((0, Kind::Ingest, Turn::Did(name, 1)))?;
    }
    Ok(lines)
}

// The first 64 travel in one message, and the others in the next.
const APPLIED: [Line; 9] = [
    (0, Kind::Route(0), FIRST_BUNDLE),
    (0, Kind::Route(0), SECOND_BUNDLE),
    (0, Kind::Route(0), Turn::NotNow),
    (0, Kind::Receive(0), FIRST_BUNDLE),
    (0, Kind::Receive(0), SECOND_BUNDLE),
    (0, Kind::Receive(0), Turn::NotNow),
    (0, Kind::Exchange, Turn::Seen(1)),
    (0, Kind::Apply(0), GROUP),
    (0, Kind::Apply(0), Turn::NotNow),
];

// Each output of the group is an answer row.
fn rows_sent(alloc: Global) -> Result<Vec<Line>, AllocError> {
    let mut lines = Vec::new(alloc);
    for place in 0..RECORDS {
        let name = Name::Row {
            time: 1,
            tag: Tag(1, place),
        };
        lines.push((0, Kind::SendRow, Turn::Did(name, 1)))?;
    }
    lines.push((0, Kind::SendRow, Turn::NotNow))?;
    Ok(lines)
}

// What is seen between them: worker 0 exchanges once, before it applies the group.
fn parts<'l>(ingested: &'l [Line], sent: &'l [Line]) -> [Part<'l>; 3] {
    [
        Part {
            lines: ingested,
            at: Loc::Source,
            frontier: Frontier::At(1),
        },
        Part {
            lines: &APPLIED,
            at: Loc::Mail(0),
            frontier: Frontier::Done,
        },
        Part {
            lines: sent,
            at: Loc::Host(0),
            frontier: Frontier::At(1),
        },
    ]
}

#[test]
fn seventy_in_two_bundles(rt: HostRuntime) -> Result<(), Cause> {
    let job = seventy_bids(rt.alloc())?;
    let ingested = ingested(rt.alloc())?;
    let sent = rows_sent(rt.alloc())?;
    let parts = parts(ingested.as_slice(), sent.as_slice());
    follows::<Q1, Brand>(&rt, rt.alloc(), &job, 100, &parts)
}
