//! What holds of the shares and times of all jobs, each law the contract of a function that does nothing. What a query
//! keeps of a key is of any type.
ghost use Rattle.mp_shares.specs.Laws.{SharesAlwaysHoldEachOnce, TimesAlwaysRise, TimesAreExact};

use mp_model::Query;

/// Each index of an event that makes a record stands once, in the share of one worker: that of the index modulo the
/// number of workers. Each share ascends, and shares hold nothing else.
pub fn shares_hold_each_record_once<Q: Query>()
    ensures { SharesAlwaysHoldEachOnce Q.Cell }
{}

/// The times of a job ascend, each once. A time is among them exactly where a record of stage 0 has it or posts it, a
/// control record has it, or a wake that stage 0 begins with.
pub fn times_are_ascending<Q: Query>()
    ensures rise { TimesAlwaysRise Q.Cell }
    ensures exact { TimesAreExact Q.Cell }
{}
