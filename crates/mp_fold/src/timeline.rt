//! The times of a key: those of its records, and those that they post.
ghost use Rattle.std.specs.Prelude.{◌≡◌, ◌≤◌, [], All, IfOk, IsPermutation, MatchOption};
ghost use Rattle.std.specs.List.{flat_map};
ghost use Rattle.std.specs.List.Sorted.{IsNonDecreasing, IsNonDecreasingBy};
ghost use Rattle.mp_names.specs.Limits.{last_time};
ghost use Rattle.mp_fold.specs.Order.{IsFirstTime};

use mp_model::{Query, Rec, Time};
use std::alloc::{AllocError, Global};

/// The times that records post, ascending, each as often as it is posted. `AllocError`: no memory.
pub fn posted_times<Q: Query>(
    alloc: Global,
    query: &Q,
    stage: u32,
    recs: &[Rec],
) -> Result<Vec<Time>, AllocError>
    requires { All (λ r. r.time ≤ last_time) recs.now }
    ensures same { IfOk result (λ v.
        IsPermutation (flat_map ((Q.facts (Q.values query.now)).posts stage) recs.now) v.items) }
    ensures ascending { IfOk result (λ v. IsNonDecreasing v.items) }
{
    let mut times = posts_of(alloc, query, stage, recs)?;
    times.sort_unstable();
    Ok(times)
}

/// The times that records post, as they come.
fn posts_of<Q: Query>(
    alloc: Global,
    query: &Q,
    stage: u32,
    recs: &[Rec],
) -> Result<Vec<Time>, AllocError>
    requires { All (λ r. r.time ≤ last_time) recs.now }
    ensures { IfOk result (λ v. v.items ≡ flat_map ((Q.facts (Q.values query.now)).posts stage) recs.now) }
{
    let mut times = Vec::new(alloc);
    for rec in recs {
        times.extend_from_slice(query.posts(stage, rec).as_slice())?;
    }
    Ok(times)
}

/// The first time of records and of posted times, both ascending.
pub fn first_time(recs: &[Rec], posted: &[Time]) -> Option<Time>
    requires recs { IsNonDecreasingBy (λ r. r.time) recs.now }
    requires posted { IsNonDecreasing posted.now }
    ensures { MatchOption result ((recs.now ≡ []) × (posted.now ≡ [])) (IsFirstTime recs.now posted.now) }
{
    match (recs.first(), posted.first()) {
        (Some(rec), Some(post)) => Some(rec.time.min(*post)),
        (Some(rec), None) => Some(rec.time),
        (None, Some(post)) => Some(*post),
        (None, None) => None,
    }
}
