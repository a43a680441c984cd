//! What the events of a job are looked through for, once: the workers' shares, and the times of records.
ghost use Rattle.std.specs.Prelude.{◌≡◌, ◌<◌, ◌≤◌, ◌++◌, ◌∷◌, [], IfOk, OnOk, if◌then◌else◌, is_some, length, map, option_to_list};
ghost use Rattle.std.specs.List.{flat_map, range_with_len};
ghost use Rattle.mp_names.specs.Limits.{last_time};
ghost use Rattle.mp_model.specs.Folds.{times_in};
ghost use Rattle.mp_model.specs.Legal.{EventsAreLegal};
ghost use Rattle.mp_model.specs.Stages.{input_records, record_of};
ghost use Rattle.mp_shares.specs.Records.{shares_of, with_index};
ghost use Rattle.mp_shares.specs.Times.{AllStandIn, HoldSame};
ghost use Rattle.mp_job.specs.Parts.{table_in};

use crate::source::Source;
use mp_model::{Event, Query, Rec, Tag, Time, Value};
use mp_shares::{Posted, Share, add_index, add_posts, add_time};
use std::alloc::{AllocError, Global};
use std::mem;

/// Puts the indices of the events that make a record into the shares of the workers, which are empty, and adds the times of
/// these records and of their posts: the posts alone. Of a time that is there already it may add no other. The events stay.
/// `AllocError`: no memory.
pub fn gather<Q: Query>(
    alloc: Global,
    source: &Source<Q>,
    events: &mut [Event],
    shares: &mut [Share],
    times: &mut Vec<Time>,
) -> Result<Vec<Time>, AllocError>
    requires legal { EventsAreLegal events.old }
    requires some_worker { 0 < length shares.old }
    requires empty { shares.old ≡ map (λ _. []) (range_with_len 0 (length shares.old)) }
    ensures shares { OnOk result (shares.new ≡ shares_of (table_in Q.facts Q.text_of (Q.values source.now.query) source.now.stop source.now.opening) events.old (length shares.old)) }
    ensures times { let q = table_in Q.facts Q.text_of (Q.values source.now.query) source.now.stop source.now.opening in
        OnOk result (HoldSame times.new.items (times.old.items ++ times_in q 0 (input_records q events.old))) }
    ensures posts { let q = table_in Q.facts Q.text_of (Q.values source.now.query) source.now.stop source.now.opening in
        IfOk result (λ posts. HoldSame posts.items (flat_map (q.posts 0) (input_records q events.old))) }
    ensures events { events.new ≡ events.old }
{
    let mut posted = Posted::new(alloc);
    for index in 0..events.len() {
        take_in(
            source,
            index as u32,
            &mut events[index],
            shares,
            times,
            &mut posted,
        )?;
    }
    Ok(posted.into_times())
}

// Puts the index of an event, if it makes a record, into the share of its worker, and adds the times of the record: its
// posts only if they differ from those that were added last, which are given. The event's value is the record's
// meanwhile, so that it isn't copied.
fn take_in<Q: Query>(
    source: &Source<Q>,
    index: u32,
    event: &mut Event,
    shares: &mut [Share],
    times: &mut Vec<Time>,
    posted: &mut Posted,
) -> Result<(), AllocError>
    requires in_time { event.old.time ≤ last_time }
    requires some_worker { 0 < length shares.old }
    requires posted { AllStandIn posted.old.last times.old.items }
    ensures shares { OnOk result (shares.new ≡
        (if is_some (record_of (table_in Q.facts Q.text_of (Q.values source.now.query) source.now.stop source.now.opening) index event.old) then with_index index shares.old else shares.old)) }
    ensures times { let q = table_in Q.facts Q.text_of (Q.values source.now.query) source.now.stop source.now.opening in
        OnOk result (HoldSame times.new.items (times.old.items ++ times_in q 0 (option_to_list (record_of q index event.old)))) }
    ensures posts { let q = table_in Q.facts Q.text_of (Q.values source.now.query) source.now.stop source.now.opening in
        OnOk result (HoldSame posted.new.times (posted.old.times ++ flat_map (q.posts 0) (option_to_list (record_of q index event.old)))) }
    ensures posted { OnOk result (AllStandIn posted.new.last times.new.items) }
    ensures event { event.new ≡ event.old }
{
    let Some(key) = source.key(event) else {
        return Ok(());
    };
    let rec = Rec {
        time: event.time,
        key,
        tag: Tag(0, u64::from(index)),
        value: mem::replace(&mut event.value, no_value()),
    };
    let posts = source.query.posts(0, &rec);
    event.value = rec.value;
    add_index(shares, index)?;
    add_time(event.time, times)?;
    add_posts(posts, posted, times)?;
    Ok(())
}

// What stands in an event while its value is a record's.
fn no_value() -> Value {
    Value::Count {
        auction: 0,
        count: 0,
    }
}
