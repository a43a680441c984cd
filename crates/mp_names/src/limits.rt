//! The limits of this version, all of them this project's profile. Contracts don't read these constants: their definitions
//! write each number once, in `specs/Limits.antt`, so a constant has to equal it.
use crate::Time;

/// How many events an event file may have.
pub const MAX_EVENTS: usize = 1_000_000;

/// The greatest time of an event, of a control record and of an auction's `expires`, in units of the event file: 2^47.
pub const MAX_TIME: Time = 1 << 47;

/// The greatest time of a group, of an answer row or of a record of a later stage, in units of the event file:
/// 2^47 + 43,200, since no record posts a later one.
pub const LAST_TIME: Time = MAX_TIME + 43_200;

/// How many bytes a name in an event may have; it has one at least.
pub const MAX_NAME: usize = 64;

/// The greatest id, seller, category, auction or bidder: 2^48.
pub const MAX_ID: u64 = 1 << 48;

/// The greatest reserve or price: 10^12.
pub const MAX_PRICE: u64 = 1_000_000_000_000;

/// How many control records a job may have.
pub const MAX_CONTROLS: usize = 65_536;

/// How many stages a query may have; it has one at least.
pub const MAX_STAGES: u32 = 4;

/// How many workers a job may have; it has one at least.
pub const MAX_WORKERS: u32 = 64;

/// How many bins the keys of a stage may be cut into: a power of two, 1 at least.
pub const MAX_BINS: u32 = 4096;

/// How many messages a mailbox between two workers may hold; it holds one at least.
pub const MAX_DEPTH: u32 = 1024;

/// How many records may travel in one message; it has one at least.
pub const MAX_BUNDLE: usize = 64;

/// The greatest seed of a schedule: 2^48.
pub const MAX_SEED: u64 = 1 << 48;

/// How many bytes a file that is read may have: 2^28.
pub const MAX_BYTES: u64 = 1 << 28;
