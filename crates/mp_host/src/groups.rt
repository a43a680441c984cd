//! The records of the first group.
ghost use Rattle.std.specs.Prelude.{◌≡◌, ◌≤◌, ◌⊎◌, ◌∷◌, [], All, drop, filter, length, not};
ghost use Rattle.std.specs.List.{list_any, prefix_len};
ghost use Rattle.mp_ordered_runs.specs.Runs.{first_run};
ghost use Rattle.mp_postdated.specs.Wakes.{ComesNoLater};
ghost use Rattle.mp_host_laws.specs.Hosted.{group_rank, is_of};

use crate::order::ByGroup;
use mp_model::{Rec, Time, Value};
use mp_names::Tag;
use mp_ordered_runs::OrderedRuns;

/// The records of the group of a key at a time, of which no record here comes before: they stand first.
pub fn first_records<'a>(records: &'a OrderedRuns<Rec, ByGroup>, time: Time, key: u64) -> &'a [Rec]
    requires { All (λ r. ComesNoLater (time, key) (r.time, r.key)) records.now.items }
    ensures inside { length result.now ≤ length records.now.items }
    ensures records { result.now ≡ filter (is_of time key) records.now.items }
    ensures others { drop (length result.now) records.now.items ≡ filter (λ r. not (is_of time key r)) records.now.items }
    ensures whole { (length result.now ≡ 0) ⊎ (length result.now ≡ length (first_run (λ r s. is_of r.time r.key s) records.now.items)) }
{
    let run = records.first_run();
    &run[..count_first(run, time, key)]
}

/// Whether there is a record of the group of a key at a time. Found by halving.
pub fn has_group(records: &OrderedRuns<Rec, ByGroup>, time: Time, key: u64) -> bool
    ensures { result ≡ list_any (is_of time key) records.now.items }
{
    match records.first_from(&before_group(time, key)) {
        Some(rec) => is_in(rec, time, key),
        None => false,
    }
}

// A record that comes before no other of the group of a key at a time, and after those of earlier groups.
fn before_group(time: Time, key: u64) -> Rec
    ensures { group_rank result ≡ time ∷ key ∷ 0 ∷ 0 ∷ [] }
{
    let value = Value::Count {
        auction: 0,
        count: 0,
    };
    Rec {
        time,
        key,
        tag: Tag(0, 0),
        value,
    }
}

// Whether a record is of the group of a key at a time.
fn is_in(rec: &Rec, time: Time, key: u64) -> bool
    ensures { result ≡ is_of time key rec.now }
{
    rec.time == time && rec.key == key
}

// How many records of a run of one group are of the group of a key at a time: all or none, so the first one tells.
fn count_first(run: &[Rec], time: Time, key: u64) -> usize
    requires { first_run (λ r s. is_of r.time r.key s) run.now ≡ run.now }
    ensures { result ≡ prefix_len (is_of time key) run.now }
{
    let Some(rec) = run.first() else {
        return 0;
    };
    if is_in(rec, time, key) { run.len() } else { 0 }
}
