//! Where outstanding work is counted, and how far it has come.
use crate::Time;

/// A location of the dataflow, as in Naiad's pointstamps. Those with a number are of that stage.
#[derive(Clone, Copy, PartialEq, Eq)]
pub enum Loc {
    /// Control records not yet sent.
    Ctl,
    /// Control records on their way.
    CtlMail,
    /// Events not yet ingested.
    Source,
    /// Records that a stage's routers hold.
    Route(u32),
    /// Records on their way to a stage's hosts.
    Mail(u32),
    /// Times of control records that aren't settled.
    Move(u32),
    /// Packets on their way.
    State(u32),
    /// Groups that wait to be applied.
    Host(u32),
    /// Answer rows not yet sent.
    OutRoute,
    /// Answer rows on their way.
    OutMail,
}

/// The least time at which something can still come to a location, or that nothing can.
#[derive(Clone, Copy, PartialEq, Eq)]
pub enum Frontier {
    /// Something may still come at this time; nothing before it.
    At(Time),
    /// Nothing comes any more.
    Done,
}
