//! Layer: the migrating operator: F and S.
//!
//! Where a host finds the states of a bin among those in hand, and the first wake of each bin: both are kept as states
//! come and go, so that no walk has to go over all of them.
#![tactic(auto)]

mod firsts;
mod spans;
mod states;

pub use firsts::{firsts_of, renew, renew_where};
pub use mp_host_laws::Held;
pub use mp_model::Time;
pub use mp_postdated::Wakes;
pub use mp_tournament::{Firsts, earlier_of};
pub use spans::{Span, Spans, spans_of};
pub use states::{has_wake, is_woken, place_before};
