//! Layer: text, files and collections.
//!
//! What lies outside the program: files by their names, and places that bytes are written to.
//! Each is a trait, with fakes in memory that can be told to fail, and a thin edge to the system.
#![tactic(auto)]

mod calls;
mod depot;
mod depot_sink;
mod failures;
mod fault;
mod host;
mod mem_depot;
mod mem_sink;
mod never_fails;
mod no_sink;
mod op;
mod pieces;
mod portion;
mod read;
mod shelf;
mod sink;

pub use depot::Depot;
pub use depot_sink::{DepotSink, append_piece};
pub use fault::{Fault, ReadRefused};
pub use host::{HostDepot, HostOut};
pub use mem_depot::MemDepot;
pub use mem_sink::MemSink;
pub use never_fails::NeverFails;
pub use no_sink::NoSink;
pub use op::Op;
pub use pieces::write_piece;
pub use read::read_all;
pub use sink::Sink;
