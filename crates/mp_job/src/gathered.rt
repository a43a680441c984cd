//! What a job makes of its lists once: the workers' shares, and the times at which something happens.
ghost use Rattle.std.specs.Prelude.{◌≡◌, ◌<◌, ◌++◌, IfOk, length};
ghost use Rattle.std.specs.List.{flat_map};
ghost use Rattle.mp_model.specs.Ascending.{ascending};
ghost use Rattle.mp_model.specs.Folds.{times_in};
ghost use Rattle.mp_model.specs.Legal.{EventsAreLegal};
ghost use Rattle.mp_model.specs.Stages.{input_records};
ghost use Rattle.mp_shares.specs.Records.{shares_of};
ghost use Rattle.mp_shares.specs.Times.{control_times};
ghost use Rattle.mp_job.specs.Parts.{table_in};
ghost use Rattle.mp_job.specs.Times.{opening_times};

use crate::gather::gather;
use crate::source::Source;
use crate::times::{add_other_times, count_with_wakes};
use mp_model::{Control, Event, Query, Time};
use mp_shares::{Share, empty_shares};
use std::alloc::{AllocError, Global};

/// The shares of the workers by their numbers, the times in order, and how many times records post or wakes have.
#[derive(Drop)]
pub struct Gathered {
    pub shares: Vec<Share>,
    pub times: Vec<Time>,
    pub post_times: usize,
}

/// What is gathered for so many workers from events, which stay, from control records and from the wakes that the job begins
/// with. `AllocError`: no memory.
pub fn gather_all<Q: Query>(
    alloc: Global,
    source: &Source<Q>,
    events: &mut [Event],
    controls: &[Control],
    workers: u32,
) -> Result<Gathered, AllocError>
    requires legal { EventsAreLegal events.old }
    requires some_worker { 0 < workers }
    ensures shares { IfOk result (λ all. all.shares.items ≡ shares_of (table_in Q.facts Q.text_of (Q.values source.now.query) source.now.stop source.now.opening) events.old workers) }
    ensures times { let q = table_in Q.facts Q.text_of (Q.values source.now.query) source.now.stop source.now.opening in
        IfOk result (λ all. all.times.items ≡ ascending ((times_in q 0 (input_records q events.old) ++ control_times controls.now) ++ opening_times source.now.opening)) }
    ensures posts { let q = table_in Q.facts Q.text_of (Q.values source.now.query) source.now.stop source.now.opening in
        IfOk result (λ all. all.post_times ≡ length (ascending (flat_map (q.posts 0) (input_records q events.old) ++ opening_times source.now.opening))) }
    ensures events { events.new ≡ events.old }
{
    let mut shares = empty_shares(alloc, workers)?;
    let mut times = Vec::new(alloc);
    let posts = gather(alloc, source, events, &mut shares, &mut times)?;
    add_other_times(&source.opening, controls, &mut times)?;
    let post_times = count_with_wakes(&source.opening, posts)?;
    Ok(Gathered {
        shares,
        times,
        post_times,
    })
}
