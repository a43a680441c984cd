//! Records in order, and their runs.
ghost use Rattle.std.specs.Prelude.{◌≡◌, ◌==◌, IfOk};
ghost use Rattle.std.specs.List.{prefix_len};
ghost use Rattle.mp_fold.specs.Order.{AreInOrder};

use mp_model::{Rec, Time};
use std::alloc::AllocError;

/// The records by key, those of a key by time, and those of one key and time in the order that they have. `AllocError`:
/// no memory.
pub fn in_order(mut recs: Vec<Rec>) -> Result<Vec<Rec>, AllocError>
    ensures { IfOk result (λ v. AreInOrder recs.items v.items) }
{
    recs.sort_by_key(|rec| (rec.key, rec.time))?;
    Ok(recs)
}

/// How many records at the front have this key.
pub fn run_of_key(recs: &[Rec], key: u64) -> usize
    ensures { result ≡ prefix_len (λ r. r.key == key) recs.now }
{
    recs.iter().take_while(|rec| rec.key == key).count()
}

/// How many records at the front have this time.
pub fn run_of_time(recs: &[Rec], time: Time) -> usize
    ensures { result ≡ prefix_len (λ r. r.time == time) recs.now }
{
    recs.iter().take_while(|rec| rec.time == time).count()
}

/// How many times at the front are this one.
pub fn run_of_posts(times: &[Time], time: Time) -> usize
    ensures { result ≡ prefix_len (λ t. t == time) times.now }
{
    times.iter().take_while(|other| **other == time).count()
}
