//! The keys and posts of q3 and q8.
ghost use Rattle.std.specs.Prelude.{◌≡◌, ◌≤◌};
ghost use Rattle.mp_names.specs.Limits.{last_time};
ghost use Rattle.mp_q_join.specs.Keys.{end_of_day, is_asked_for, posts_of, seller_asked_for, seller_of};

use mp_model::{PostList, Rec, Text, Time, Value};

/// The first of the states whose persons q3 asks for, by this project's profile.
const OREGON: &[u8] = b"OR";

/// The second of those states.
const IDAHO: &[u8] = b"ID";

/// The third of those states.
const CALIFORNIA: &[u8] = b"CA";

/// The key of q3: the seller of an auction of this category, and the id of a person of the state OR, ID or CA. Other
/// values make no record.
pub fn seller_asked_for(wanted: u64, value: &Value) -> Option<u64>
    ensures { result ≡ seller_asked_for wanted value.now }
{
    match value {
        Value::Person { id, state, .. } if is_asked_for(state) => Some(*id),
        Value::Auction {
            seller,
            category,
            ..
        } if *category == wanted => Some(*seller),
        _ => None,
    }
}

/// Whether q3 asks for the persons of this state.
fn is_asked_for(state: &Text) -> bool
    ensures { result ≡ is_asked_for state.now }
{
    let state = state.as_bytes();
    state == OREGON || state == IDAHO || state == CALIFORNIA
}

/// The key of q8: the seller of an auction, and the id of a person. Other values make no record.
pub fn seller_of(value: &Value) -> Option<u64>
    ensures { result ≡ seller_of value.now }
{
    match value {
        Value::Person { id, .. } => Some(*id),
        Value::Auction { seller, .. } => Some(*seller),
        _ => None,
    }
}

/// The posts of q8: a person and an auction post the end of the day of their time. A day has 1 to 43,200 units of time, and
/// the time is at most 2^47 + 43,200.
pub fn posts_of(width: u64, stage: u32, rec: &Rec) -> PostList
    requires some_width { 1 ≤ width }
    requires short { width ≤ 43200 }
    requires in_time { rec.now.time ≤ last_time }
    ensures { result ≡ posts_of width stage rec.now }
{
    let mut posts = PostList::new();
    if stage == 0 && matches!(&rec.value, Value::Person { .. } | Value::Auction { .. }) {
        posts.push(end_of_day(width, rec.time));
    }
    posts
}

/// The end of the day of a time, which is at most 2^47 + 43,200. A day has 1 to 43,200 units of time.
fn end_of_day(width: u64, time: Time) -> Time
    requires some_width { 1 ≤ width }
    requires short { width ≤ 43200 }
    requires in_time { time ≤ last_time }
    ensures { result ≡ end_of_day width time }
{
    (time / width + 1) * width
}
