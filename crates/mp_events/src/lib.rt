//! Layer: a job.
//!
//! Events from the lines of an event file, and lines from events.
//!
//! A line says a person (`P`), an auction (`A`) or a bid (`B`). Its fields are checked by one table, from left to
//! right, and the first check that fails is the reason why a file is refused. The lines, their limits and the order of
//! the checks are this project's profile; persons, auctions and bids are those of NEXMark.
//!
//! The first lines of a file are read in one pass over their bytes, as long as they fail no check, end by a line feed alone and
//! have no number of more than 18 digits. From the first other line on each is cut and checked field by field. The first lines can
//! also be read in pieces, each for itself, so that a caller with threads reads these at the same time.
#![tactic(auto)]

mod kinds;
mod laws;
mod line;
mod piece;
mod reading;
mod refused;
mod usual;
mod usual_line;
mod ways;
mod writing;

pub use laws::written_events_are_read;
pub use piece::{Piece, line_start_behind, read_piece};
pub use reading::{read_events, read_events_behind};
pub use refused::{EventsReason, EventsRefused};
pub use ways::{EventReading, OnOneThread};
pub use writing::write_event;
