//! Layer: a job.
//!
//! Who owns a bin at each time, as the control records that were noted say.
#![tactic(auto)]

mod changes;
mod finding;
mod kept;
mod laws;
mod owners;
mod ranked;

pub use laws::{moves_are_told_by_notes, order_does_not_matter, owners_are_told_by_notes};
pub use mp_layout::{FirstOwners, bin_of, bins_are_leading_bits};
pub use mp_names::{Control, Move, Shape};
pub use owners::Owners;
