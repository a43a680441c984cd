//! A bin with a pending wake is handed off, step by step.
ghost use Rattle.std.specs.Prelude.{IfOk};
ghost use Rattle.mp_job.specs.Legal.{ControlsFit};
ghost use Rattle.mp_model.specs.Legal.{EventIsLegal, EventsAreLegal};

use crate::script::{Line, Part, follows};
use mp_board::Cause;
use mp_job::{Control, Event, Job, JobInputs, Shape};
use mp_model::Value;
use mp_names::{Frontier, Kind, Loc, Name, Tag};
use mp_q_auction::Q4;
use mp_worker::Turn;
use std::alloc::{AllocError, Global};
use std::marker::Brand;

const SHAPE: Shape = Shape {
    workers: 2,
    bins: 1,
    stages: 2,
};

// The only bin of stage 0 goes from worker 0 to worker 1.
const MOVE: Control = Control {
    time: 50,
    stage: 0,
    bin: 0,
    worker: 1,
};

const HOST: Loc = Loc::Host(0);

const STATE: Loc = Loc::State(0);

const ROUTE: Kind = Kind::Route(0);

const APPLY: Kind = Kind::Apply(0);

const EXTRACT: Kind = Kind::Extract(0);

const SETTLE: Kind = Kind::Settle(0);

// It closes at 100.
fn auction() -> Event
    ensures { EventIsLegal result }
{
    Event {
        time: 0,
        value: Value::Auction {
            id: 1,
            seller: 9,
            category: 10,
            reserve: 0,
            expires: 100,
        },
    }
}

fn bid_on_it() -> Event
    ensures { EventIsLegal result }
{
    Event {
        time: 5,
        value: Value::Bid {
            auction: 1,
            bidder: 2,
            price: 60,
        },
    }
}

// An auction, and a bid on it.
fn events(alloc: Global) -> Result<Vec<Event>, AllocError>
    ensures { IfOk result (λ v. EventsAreLegal v.items) }
{
    let mut events = Vec::new(alloc);
    events.push(auction())?;
    events.push(bid_on_it())?;
    Ok(events)
}

// The bin of the auction moves while it is open.
fn controls(alloc: Global) -> Result<Vec<Control>, AllocError>
    ensures { IfOk result (λ v. ControlsFit SHAPE v.items) }
{
    let mut controls = Vec::new(alloc);
    controls.push(MOVE)?;
    Ok(controls)
}

/// The bin of the auction moves while it is open.
pub fn one_move(alloc: Global) -> Result<Job<Q4>, AllocError> {
    Job::new(alloc, Q4::given(), events(alloc)?, controls(alloc)?, SHAPE)
}

// The same job stops while the auction is open.
fn one_move_until_60(alloc: Global) -> Result<Job<Q4>, AllocError> {
    let inputs = JobInputs {
        events: events(alloc)?,
        controls: controls(alloc)?,
        firsts: Vec::new(alloc),
    };
    Job::until(alloc, Q4::given(), inputs, SHAPE, 60)
}

const CONTROL_TO_0: Turn = Turn::Did(Name::Ctrl { index: 0, to: 0 }, 1);

const CONTROL_TO_1: Turn = Turn::Did(Name::Ctrl { index: 0, to: 1 }, 1);

const GROUP_AT_0: Turn = Turn::Did(
    Name::Group {
        stage: 0,
        time: 0,
        key: 1,
    },
    1,
);

const GROUP_AT_5: Turn = Turn::Did(
    Name::Group {
        stage: 0,
        time: 5,
        key: 1,
    },
    1,
);

const GROUP_AT_100: Turn = Turn::Did(
    Name::Group {
        stage: 0,
        time: 100,
        key: 1,
    },
    1,
);

const AUCTION: Turn = Turn::Did(
    Name::Rec {
        stage: 0,
        time: 0,
        key: 1,
        tag: Tag(0, 0),
    },
    1,
);

const BID: Turn = Turn::Did(
    Name::Rec {
        stage: 0,
        time: 5,
        key: 1,
        tag: Tag(0, 1),
    },
    1,
);

const PACKET: Turn = Turn::Did(
    Name::Packet {
        stage: 0,
        bin: 0,
        time: 50,
    },
    1,
);

const SETTLED: Turn = Turn::Did(Name::Settled { stage: 0, time: 50 }, 1);

const CONTROLS_COME: [Line; 9] = [
    (0, Kind::SendControl, CONTROL_TO_0),
    (0, Kind::SendControl, CONTROL_TO_1),
    (0, Kind::Receive(0), CONTROL_TO_0),
    (1, Kind::Receive(0), CONTROL_TO_1),
    (0, Kind::Ingest, AUCTION),
    (1, Kind::Ingest, BID),
    (0, Kind::Exchange, Turn::Seen(1)),
    (1, Kind::Exchange, Turn::Seen(2)),
    (0, Kind::Exchange, Turn::Seen(2)),
];

const RECORDS_COME: [Line; 8] = [
    (0, ROUTE, AUCTION),
    (1, ROUTE, BID),
    (0, Kind::Receive(0), AUCTION),
    (0, Kind::Receive(1), BID),
    (0, EXTRACT, Turn::NotNow),
    (0, Kind::Exchange, Turn::Seen(3)),
    (1, Kind::Exchange, Turn::Seen(4)),
    (0, Kind::Exchange, Turn::Seen(4)),
];

const GROUPS_BEFORE: [Line; 5] = [
    (0, APPLY, GROUP_AT_0),
    (0, APPLY, GROUP_AT_5),
    (0, APPLY, Turn::NotNow),
    (0, EXTRACT, Turn::NotNow),
    (0, Kind::Exchange, Turn::Seen(5)),
];

const BIN_LEAVES: [Line; 5] = [
    (0, EXTRACT, PACKET),
    (0, SETTLE, SETTLED),
    (1, SETTLE, SETTLED),
    (0, Kind::Exchange, Turn::Seen(6)),
    (1, Kind::Exchange, Turn::Seen(7)),
];

const BIN_COMES: [Line; 4] = [
    (1, APPLY, Turn::NotNow),
    (1, Kind::Receive(0), PACKET),
    (1, APPLY, Turn::NotNow),
    (1, Kind::Exchange, Turn::Seen(8)),
];

const GROUP_AT_THE_WAKE: [Line; 1] = [(1, APPLY, GROUP_AT_100)];

// Before the stop time there is nothing left to do for worker 1, and worker 0 sees that.
const WAKE_WAITS: [Line; 2] = [(1, APPLY, Turn::NotNow), (0, Kind::Exchange, Turn::Seen(8))];

const CONTROLS: Part<'static> = Part {
    lines: &CONTROLS_COME,
    at: Loc::CtlMail,
    frontier: Frontier::Done,
};

const RECORDS: Part<'static> = Part {
    lines: &RECORDS_COME,
    at: Loc::Mail(0),
    frontier: Frontier::Done,
};

const MOVE_IS_OPEN: Part<'static> = Part {
    lines: &[],
    at: STATE,
    frontier: Frontier::At(50),
};

const EARLIER_GROUPS: Part<'static> = Part {
    lines: &GROUPS_BEFORE,
    at: HOST,
    frontier: Frontier::At(50),
};

const LEAVING: Part<'static> = Part {
    lines: &BIN_LEAVES,
    at: STATE,
    frontier: Frontier::At(50),
};

const COMING: Part<'static> = Part {
    lines: &BIN_COMES,
    at: STATE,
    frontier: Frontier::Done,
};

const WAKE: Part<'static> = Part {
    lines: &GROUP_AT_THE_WAKE,
    at: STATE,
    frontier: Frontier::Done,
};

const NO_WAKE: Part<'static> = Part {
    lines: &WAKE_WAITS,
    at: HOST,
    frontier: Frontier::At(100),
};

// The control record comes to both workers, and both records to worker 0. The bin leaves it once its groups
// before the move are applied; the wake at 100 goes with it. Worker 1 applies the group at 100 once it has
// the bin and knows that no packet is on its way.
const PARTS: [Part<'static>; 7] = [
    CONTROLS,
    RECORDS,
    MOVE_IS_OPEN,
    EARLIER_GROUPS,
    LEAVING,
    COMING,
    WAKE,
];

// The same in a job that stops at 60: the wake goes along with the bin, and its group isn't applied.
const PARTS_TO_THE_STOP: [Part<'static>; 7] = [
    CONTROLS,
    RECORDS,
    MOVE_IS_OPEN,
    EARLIER_GROUPS,
    LEAVING,
    COMING,
    NO_WAKE,
];

#[test]
fn gated_handoff(rt: HostRuntime) -> Result<(), Cause> {
    let job = one_move(rt.alloc())?;
    follows::<Q4, Brand>(&rt, rt.alloc(), &job, 64, &PARTS)
}

#[test]
fn stopped_handoff(rt: HostRuntime) -> Result<(), Cause> {
    let job = one_move_until_60(rt.alloc())?;
    follows::<Q4, Brand>(&rt, rt.alloc(), &job, 64, &PARTS_TO_THE_STOP)
}
