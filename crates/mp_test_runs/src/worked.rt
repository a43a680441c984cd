//! Worked examples of q1, step by step.
ghost use Rattle.std.specs.Prelude.{◌≡◌, ◌≤◌, false, length};
ghost use Rattle.mp_job.specs.Runs.{IsRunOf};
ghost use Rattle.mp_model.specs.Legal.{EventIsLegal};

use crate::script::{Line, Part, follows};
use mp_board::Cause;
use mp_drive::{Plain, drive_seed};
use mp_gate::OpenGate;
use mp_job::{Event, Job, Shape, Time};
use mp_model::{Naming, Value};
use mp_names::{Frontier, Kind, Loc, Name, Tag};
use mp_outside::MemSink;
use mp_q_simple::Q1;
use mp_worker::Turn;
use std::alloc::{AllocError, Global};
use std::marker::Brand;
use std::process::Abort;

const SHAPE: Shape = Shape {
    workers: 3,
    bins: 4,
    stages: 1,
};

fn bid(time: u32, auction: u32, price: u32) -> Event
    ensures { EventIsLegal result }
{
    Event {
        time: Time::from(time),
        value: Value::Bid {
            auction: u64::from(auction),
            bidder: 1,
            price: u64::from(price),
        },
    }
}

// Bids, each a time, an auction and a price, on three workers with four bins.
fn job_of(alloc: Global, bids: &[(u32, u32, u32)]) -> Result<Job<Q1>, AllocError>
    requires { length bids.now ≤ 4 }
{
    let mut events = Vec::new(alloc);
    for (time, auction, price) in bids {
        events.push(bid(*time, *auction, *price))?;
    }
    let job = Job::new(alloc, Q1::given(), events, Vec::new(alloc), SHAPE)?;
    Ok(job)
}

// Two bids at one time: the first goes from worker 0 to worker 1, the second from worker 1 to worker 2.
const TWO_BIDS: [(u32, u32, u32); 2] = [(5, 4, 100), (5, 1, 200)];

// Of these worker 0 takes in the first and the last.
const FOUR_BIDS: [(u32, u32, u32); 4] = [(30, 1, 100), (20, 1, 200), (10, 1, 300), (5, 1, 400)];

// The first bid, from worker 0 to worker 1.
const FIRST_BID: Turn = Turn::Did(
    Name::Rec {
        stage: 0,
        time: 5,
        key: 4,
        tag: Tag(0, 0),
    },
    1,
);

// The second bid, from worker 1 to worker 2.
const SECOND_BID: Turn = Turn::Did(
    Name::Rec {
        stage: 0,
        time: 5,
        key: 1,
        tag: Tag(0, 1),
    },
    1,
);

// What worker 2 makes of the second bid.
const SECOND_GROUP: Turn = Turn::Did(
    Name::Group {
        stage: 0,
        time: 5,
        key: 1,
    },
    1,
);

// Worker 2 takes the second bid, which worker 1 hasn't posted as sent.
const BOTH_ON_THE_WAY: [Line; 7] = [
    (0, Kind::Ingest, FIRST_BID),
    (0, Kind::Route(0), FIRST_BID),
    (0, Kind::Exchange, Turn::Seen(1)),
    (1, Kind::Ingest, SECOND_BID),
    (1, Kind::Route(0), SECOND_BID),
    (2, Kind::Receive(1), SECOND_BID),
    (2, Kind::Exchange, Turn::Seen(2)),
];

// Worker 1 posts it as sent, and takes the first bid only then.
const FIRST_IS_TAKEN: [Line; 6] = [
    (2, Kind::Apply(0), Turn::NotNow),
    (1, Kind::Exchange, Turn::Seen(3)),
    (2, Kind::Exchange, Turn::Seen(3)),
    (2, Kind::Apply(0), Turn::NotNow),
    (1, Kind::Receive(0), FIRST_BID),
    (1, Kind::Exchange, Turn::Seen(4)),
];

const SECOND_IS_APPLIED: [Line; 2] = [
    (2, Kind::Exchange, Turn::Seen(4)),
    (2, Kind::Apply(0), SECOND_GROUP),
];

// Worker 2 takes a bid that worker 1 posts as sent only later: the count of records on their way is 0 while
// the other bid is on its way. Its group waits all the same.
const COUNTS_CANCEL: [Part<'static>; 3] = [
    Part {
        lines: &BOTH_ON_THE_WAY,
        at: Loc::Mail(0),
        frontier: Frontier::At(5),
    },
    Part {
        lines: &FIRST_IS_TAKEN,
        at: Loc::Mail(0),
        frontier: Frontier::Done,
    },
    Part {
        lines: &SECOND_IS_APPLIED,
        at: Loc::Mail(0),
        frontier: Frontier::Done,
    },
];

#[test]
fn counts_cancel(rt: HostRuntime) -> Result<(), Cause> {
    let job = job_of(rt.alloc(), &TWO_BIDS)?;
    follows::<Q1, Brand>(&rt, rt.alloc(), &job, 64, &COUNTS_CANCEL)
}

// The four bids.
const BID_AT_30: Turn = Turn::Did(
    Name::Rec {
        stage: 0,
        time: 30,
        key: 1,
        tag: Tag(0, 0),
    },
    1,
);

const BID_AT_20: Turn = Turn::Did(
    Name::Rec {
        stage: 0,
        time: 20,
        key: 1,
        tag: Tag(0, 1),
    },
    1,
);

const BID_AT_10: Turn = Turn::Did(
    Name::Rec {
        stage: 0,
        time: 10,
        key: 1,
        tag: Tag(0, 2),
    },
    1,
);

const BID_AT_5: Turn = Turn::Did(
    Name::Rec {
        stage: 0,
        time: 5,
        key: 1,
        tag: Tag(0, 3),
    },
    1,
);

const ONE_BID_EACH: [Line; 6] = [
    (0, Kind::Ingest, BID_AT_30),
    (0, Kind::Exchange, Turn::Seen(1)),
    (1, Kind::Ingest, BID_AT_20),
    (1, Kind::Exchange, Turn::Seen(2)),
    (2, Kind::Ingest, BID_AT_10),
    (2, Kind::Exchange, Turn::Seen(3)),
];

const LAST_BID: [Line; 4] = [
    (1, Kind::Ingest, Turn::NotNow),
    (0, Kind::Ingest, BID_AT_5),
    (0, Kind::Ingest, Turn::NotNow),
    (0, Kind::Exchange, Turn::Seen(4)),
];

// After one bid of each worker is taken in, the last one of worker 0 is still to come.
const SHARES_BY_INDEX: [Part<'static>; 2] = [
    Part {
        lines: &ONE_BID_EACH,
        at: Loc::Source,
        frontier: Frontier::At(5),
    },
    Part {
        lines: &LAST_BID,
        at: Loc::Source,
        frontier: Frontier::Done,
    },
];

#[test]
fn shares_by_index(rt: HostRuntime) -> Result<(), Cause> {
    let job = job_of(rt.alloc(), &FOUR_BIDS)?;
    follows::<Q1, Brand>(&rt, rt.alloc(), &job, 64, &SHARES_BY_INDEX)
}

// The kinds of step of three workers and one stage, in the order in which they are tried.
const KINDS: [Kind; 12] = [
    Kind::Ingest,
    Kind::SendControl,
    Kind::Route(0),
    Kind::Receive(0),
    Kind::Receive(1),
    Kind::Receive(2),
    Kind::Extract(0),
    Kind::Settle(0),
    Kind::Apply(0),
    Kind::SendRow,
    Kind::Write,
    Kind::Exchange,
];

// All places of workers 0 and 1 in turn, a hundred times, and none of worker 2.
fn places_of_two(alloc: Global) -> Result<Vec<(u32, Kind)>, AllocError> {
    let mut places = Vec::new(alloc);
    for _ in 0..100 {
        for worker in 0..2 {
            for kind in KINDS {
                places.push((worker, kind))?;
            }
        }
    }
    Ok(places)
}

fn is_group(turn: &Turn) -> bool {
    matches!(turn, Turn::Did(Name::Group { .. }, _))
}

// While worker 2 makes no step the message to it isn't taken, so no group is applied.
fn no_groups(rt: &impl Abort, turns: &[Turn]) {
    assert!(rt; !turns.iter().any(is_group));
}

// The workers make these steps, and the schedule of a seed ends the run from there on.
fn starves_and_ends<J: Naming>(
    rt: &impl Abort,
    alloc: Global,
    job: &Job<Q1>,
    places: &[(u32, Kind)],
    sink: &mut MemSink,
) -> Result<(), Cause>
    requires job { IsRunOf job.now J.job }
    requires pace { J.job.paced ≡ false }
{
    let mut plain = Plain::<Q1, J>::open(alloc, job, 64)?;
    let turns = plain.drive_list(alloc, places, sink)?;
    no_groups(rt, turns.as_slice());
    drive_seed(&mut plain, 0, &OpenGate, sink)?;
    Ok(())
}

fn ends_with_rows(rt: &impl Abort, sink: &MemSink) {
    assert!(rt; sink.bytes() == b"5|1|1|178\n5|4|1|89\n".as_slice());
}

#[test]
fn starved_worker(rt: HostRuntime) -> Result<(), Cause> {
    let job = job_of(rt.alloc(), &TWO_BIDS)?;
    let places = places_of_two(rt.alloc())?;
    let mut sink = MemSink::new(rt.alloc());
    starves_and_ends::<Brand>(&rt, rt.alloc(), &job, places.as_slice(), &mut sink)?;
    ends_with_rows(&rt, &sink);
    Ok(())
}
