//! Layer: text, files and collections.
//!
//! Short lists, which stand in the value that holds them.
#![tactic(auto)]

mod list;

pub use list::ShortList;
