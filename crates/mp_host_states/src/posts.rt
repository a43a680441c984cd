//! The times at which the records of a group wake their key.
ghost use Rattle.std.specs.Prelude.{◌≡◌, ◌≤◌, ◌-◌, ◌^◌, ◌++◌, All, OnOk, length, min};
ghost use Rattle.std.specs.List.{flat_map};
ghost use Rattle.mp_names.specs.Limits.{last_time};

use mp_model::{Query, Rec, Time};
use std::alloc::AllocError;

/// Adds the times that records post, one record after the other. `AllocError`: no memory.
pub fn add_posts<Q: Query>(
    query: &Q,
    stage: u32,
    recs: &[Rec],
    times: &mut Vec<Time>,
) -> Result<(), AllocError>
    requires { All (λ r. r.time ≤ last_time) recs.now }
    ensures { OnOk result (times.new.items ≡ times.old.items ++ flat_map ((Q.facts (Q.values query.now)).posts stage) recs.now) }
{
    for rec in recs {
        times.extend_from_slice(query.posts(stage, rec).as_slice())?;
    }
    Ok(())
}

/// How many times records post, each time of each of them counted; 2^64 - 1 where there are more.
pub fn count_posts<Q: Query>(query: &Q, stage: u32, recs: &[Rec]) -> u64
    requires { All (λ r. r.time ≤ last_time) recs.now }
    ensures { result ≡ min (length (flat_map ((Q.facts (Q.values query.now)).posts stage) recs.now)) (2 ^ 64 - 1) }
{
    let mut count: u64 = 0;
    for rec in recs {
        count = count.saturating_add(query.posts(stage, rec).as_slice().len() as u64);
    }
    count
}
