//! Layer: the audit of a journal.
//!
//! Where one worker of a player stands: how far it is in each list, what it holds to route, what it saw, and what it has done since
//! it last posted; and what lets it make its next step along a list.
//!
//! The records of a stage that it holds to route stand by receiver, in rank order: the least of all, and those that go with it in a
//! message, are found at the front of the lists. And the mail of a player: from each worker to each the messages that wait, of which
//! it keeps the first name and how many names there are.
#![tactic(auto)]

mod advancing;
mod conditions;
mod done;
mod held;
mod mail;
mod message;
mod order;
mod seeing;
mod standing;

pub use advancing::{advance, work_done};
pub use conditions::{entry_at, fits, has_seen_enough, sends};
pub use done::Done;
pub use held::Held;
pub use mail::Mail;
pub use message::Message;
pub use order::ByRank;
pub use seeing::{hosts_passed, sees_group, sees_packet, sees_time};
pub use standing::Standing;
