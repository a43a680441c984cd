//! Layer: the migrating operator: F and S.
//!
//! Messages between the workers of a job: control records, bundles of records on their way to the worker that owns their
//! keys, the states of bins that move, and answer rows on their way to worker 0. Contracts see a message's names; what it
//! holds is what the job has under these names.
#![tactic(auto)]

mod bundle;
mod laws;
mod message;
mod names;
mod state;

pub use bundle::Bundle;
pub use laws::{
    contents_are_messages, messages_are_owed, messages_go_where_they_are_owed, names_tell_contents,
};
pub use message::{Body, Msg};
pub use names::Names;
pub use state::{BinState, BoxedState};
