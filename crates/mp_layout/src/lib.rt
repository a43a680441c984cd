//! Layer: a job.
//!
//! The layout of a job: which bin a key is in, and who owns each bin of each stage at first.
#![tactic(auto)]

mod bin;
mod firsts;
mod laws;

pub use bin::bin_of;
pub use firsts::{FirstOwners, bin_index};
pub use laws::bins_are_leading_bits;
pub use mp_names::{First, Shape};
