//! Of a host: the state of a bin comes and goes, with ample memory.
ghost use Rattle.std.specs.Prelude.{◌≡◌, ◌≤◌, [], IfOk, length, map};
ghost use Rattle.mp_job.specs.Runs.{IsRunOf};
ghost use Rattle.std.specs.Vec.{vec_capacity};
ghost use Rattle.mp_model.specs.Ascending.{ascending};
ghost use Rattle.mp_outline.specs.JobOutline.{layout_of};
ghost use Rattle.mp_samples.specs.Jobs.{one_move, three_workers};

use crate::seen::seen_with;
use mp_bins::Shape;
use mp_host::{Host, Job, Naming, Owners, Time};
use mp_msg::BinState;
use mp_samples::{AnsweringBids, one_move, state_of_bin, to_worker_two};
use std::alloc::{AllocError, Global};
use std::marker::Brand;
use std::process::Abort;

// An empty list with room for a number for each time that the state has a wake at.
fn room_for(alloc: Global, state: &BinState<u64>) -> Result<Vec<(Time, u64)>, AllocError>
    ensures empty { IfOk result (λ numbers. numbers.items ≡ []) }
    ensures room { IfOk result (λ numbers. length (ascending (map (λ w. w.0) state.now.wakes)) ≤ vec_capacity numbers) }
{
    let numbers = Vec::with_capacity(alloc, state.wakes.len())?;
    Ok(numbers)
}

// Owners that have noted that the bin goes to worker 2.
fn owners_with_note(alloc: Global, shape: Shape) -> Result<Owners, AllocError>
    requires { shape ≡ three_workers }
    ensures { IfOk result (λ o. o.layout ≡ record { shape = three_workers; firsts = [] }) }
{
    let mut owners = Owners::new(alloc, shape)?;
    owners.note(0, to_worker_two())?;
    Ok(owners)
}

// Worker 2's host, which has room for the bin.
fn host_with_room<'a, J: Naming>(
    alloc: Global,
    job: &'a Job<AnsweringBids>,
) -> Result<Host<'a, AnsweringBids, J>, AllocError>
    requires job { IsRunOf job.now J.job }
    requires one_move { J.job ≡ one_move }
    ensures stage { IfOk result (λ h. h.stage ≡ 0) }
    ensures room { IfOk result (λ h. 1 ≤ h.room_for_bins) }
{
    let mut host = Host::<AnsweringBids, J>::new(alloc, 0, 2, job)?;
    host.make_room(1)?;
    Ok(host)
}

// The wake of the state begins to wait.
fn wake_is_told<J: Naming>(
    rt: &impl Abort,
    alloc: Global,
    host: &Host<'_, AnsweringBids, J>,
    state: &BinState<u64>,
) -> Result<(), AllocError> {
    let mut numbers = room_for(alloc, state)?;
    host.coming(state, &mut numbers);
    is_one_at_fifteen(rt, numbers.as_slice());
    Ok(())
}

fn is_one_at_fifteen(rt: &impl Abort, numbers: &[(Time, u64)]) {
    assert!(rt; numbers == [(15, 1)].as_slice());
}

// The bin comes at 10.
fn bin_comes<J: Naming>(
    rt: &impl Abort,
    alloc: Global,
    host: &mut Host<'_, AnsweringBids, J>,
) -> Result<(), AllocError>
    requires one_move { J.job ≡ one_move }
    requires stage { host.old.stage ≡ 0 }
    requires room { 1 ≤ host.old.room_for_bins }
{
    let state = state_of_bin(alloc)?;
    wake_is_told(rt, alloc, host, &state)?;
    host.install(1, 10, state);
    Ok(())
}

// Nothing is outstanding, so the wake at 15 is ready.
fn wake_is_ready<J: Naming>(
    rt: &impl Abort,
    alloc: Global,
    host: &Host<'_, AnsweringBids, J>,
    owners: &Owners,
) -> Result<(), AllocError>
    requires { owners.now.layout ≡ layout_of J.job }
{
    let seen = seen_with(alloc, &[])?;
    is_ready(rt, host.ready(&seen, owners));
    Ok(())
}

fn is_ready(rt: &impl Abort, group: Option<(Time, u64)>) {
    assert!(rt; group == Some((15, 7)));
}

// Worker 2 takes the bin in hand at 10. Its wake at 15 waits for the frontier.
fn bin_is_installed<J: Naming>(
    rt: &impl Abort,
    alloc: Global,
    owners: &Owners,
    host: &mut Host<'_, AnsweringBids, J>,
) -> Result<(), AllocError>
    requires one_move { J.job ≡ one_move }
    requires owners { owners.now.layout ≡ record { shape = three_workers; firsts = [] } }
    requires stage { host.old.stage ≡ 0 }
    requires room { 1 ≤ host.old.room_for_bins }
{
    bin_comes(rt, alloc, host)?;
    wake_is_ready(rt, alloc, host, owners)
}

// The wake at 15 leaves with the bin, once the wakes are sorted.
fn wake_leaves<J: Naming>(
    rt: &impl Abort,
    alloc: Global,
    host: &mut Host<'_, AnsweringBids, J>,
) -> Result<(), AllocError> {
    host.sort_wakes(1, 20)?;
    let numbers = host.leaving(alloc, 1, 20)?;
    is_one_at_fifteen(rt, numbers.as_slice());
    Ok(())
}

// No state of the bin began before 10.
fn nothing_leaves<J: Naming>(rt: &impl Abort, host: &mut Host<'_, AnsweringBids, J>) {
    assert!(rt; host.take_bin(1, 10).is_none());
}

fn pending_are<J: Naming>(rt: &impl Abort, host: &Host<'_, AnsweringBids, J>, count: u64) {
    assert!(rt; host.pending(15) == count);
}

fn auction_is_marked(rt: &impl Abort, state: &BinState<u64>) {
    assert!(rt; state.cells.get(&7).copied() == Some(1));
}

// The bin leaves with its mark and its wake, and comes back.
fn bin_leaves<J: Naming>(rt: &impl Abort, host: &mut Host<'_, AnsweringBids, J>) -> bool {
    let Some(one) = host.take_bin(1, 20) else {
        return false;
    };
    auction_is_marked(rt, &one.state);
    pending_are(rt, host, 0);
    host.put_back(one);
    true
}

// The bin leaves with the wake at 15, once its wakes are sorted, and comes back with it.
fn bin_comes_back<J: Naming>(
    rt: &impl Abort,
    alloc: Global,
    host: &mut Host<'_, AnsweringBids, J>,
) -> Result<(), AllocError> {
    wake_leaves(rt, alloc, host)?;
    nothing_leaves(rt, host);
    assert!(rt; bin_leaves(rt, host));
    pending_are(rt, host, 1);
    Ok(())
}

fn bin_comes_and_leaves<J: Naming>(
    rt: &impl Abort,
    alloc: Global,
    job: &Job<AnsweringBids>,
) -> Result<(), AllocError>
    requires job { IsRunOf job.now J.job }
    requires one_move { J.job ≡ one_move }
{
    let owners = owners_with_note(alloc, job.shape())?;
    let mut host = host_with_room::<J>(alloc, job)?;
    bin_is_installed(rt, alloc, &owners, &mut host)?;
    bin_comes_back(rt, alloc, &mut host)
}

#[test]
fn a_bin_comes_and_leaves_with_its_wakes(rt: HostRuntime) -> Result<(), AllocError> {
    let job = one_move(rt.alloc())?;
    bin_comes_and_leaves::<Brand>(&rt, rt.alloc(), &job)
}
