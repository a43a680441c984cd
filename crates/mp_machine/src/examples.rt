//! Worked examples as runs, computed by the definitions alone.

ghost use Rattle.mp_machine.specs.Samples.{CountsCancelInARun, HandoffIsGated, PacedMovesWait, RecordsTravelTogether, StopsAreKept, OpeningWakeIsApplied};

/// Three workers and two bids: a count is zero with a record on its way, since posted logs come from
/// different moments. The frontier stands all the same.
pub fn counts_cancel_in_a_run()
    ensures { CountsCancelInARun }
{}

/// An auction, a bid on it and a move of its bin before it closes: the bin leaves after its groups of
/// earlier times, its wake goes along, and the new owner applies it once nothing more can come before.
pub fn handoff_is_gated()
    ensures { HandoffIsGated }
{}

/// Four bids, of which two at most travel in a message: those of one time go together, in the order of their
/// tags. A mailbox is full by its messages, not by their names.
pub fn records_travel_together()
    ensures { RecordsTravelTogether }
{}

/// A bin that moves there and back, in a paced job: the second control record waits until worker 0 has seen that the
/// bin arrived. Where the job isn't paced it goes out at once; and in a paced job they go out by time.
pub fn paced_moves_wait()
    ensures { PacedMovesWait }
{}

/// A stop time between a bin's move and the wake that goes along with it: the new owner never applies the wake, and all
/// is over with the group waiting.
pub fn stops_are_kept()
    ensures { StopsAreKept }
{}

/// A job that goes on from a checkpoint, with no event left and a wake from the start: the wake moves with its
/// bin, its new owner applies it, and the row that follows is written.
pub fn opening_wake_is_applied()
    ensures { OpeningWakeIsApplied }
{}
