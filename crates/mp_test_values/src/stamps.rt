//! Counts and their frontiers, with ample memory.
ghost use Rattle.std.specs.Prelude.{IfOk};
ghost use Rattle.std.specs.List.Sorted.{IsStrictlyIncreasing};

use mp_names::Time;
use mp_stamps::{Counts, Frontier, Loc};
use std::alloc::{AllocError, Global};
use std::process::Abort;

// Adds to a small count.
fn add(rt: &impl Abort, counts: &mut Counts, time: Time, by: i64) {
    let before = counts.at(Loc::Mail(0), time);
    assert!(rt; -9 < before && before < 9 && -9 < by && by < 9);
    counts.add(Loc::Mail(0), time, by);
}

// Counts of either sign hold the frontier, until they are 0 again.
fn follow_changes(rt: &impl Abort, counts: &mut Counts) {
    for (time, by, frontier) in [
        (9, 1, Frontier::At(9)),
        (5, -1, Frontier::At(5)),
        (5, 1, Frontier::At(9)),
        (9, -1, Frontier::Done),
    ] {
        add(rt, counts, time, by);
        assert!(rt; counts.frontier(Loc::Host(0)) == frontier);
    }
}

#[test]
fn frontier_of_dense_counts(rt: HostRuntime) -> Result<(), AllocError> {
    let mut counts = Counts::over(rt.alloc(), 1, &[5, 9])?;
    follow_changes(&rt, &mut counts);
    Ok(())
}

// The times below one.
fn times_below(alloc: Global, end: Time) -> Result<Vec<Time>, AllocError>
    ensures { IfOk result (λ times. IsStrictlyIncreasing times.items) }
{
    let mut times = Vec::new(alloc);
    for time in 0..end {
        times.push(time)?;
    }
    Ok(times)
}

// Counts at the times below 5000.
fn counts_below_5000(alloc: Global) -> Result<Counts, AllocError> {
    let times = times_below(alloc, 5000)?;
    Counts::over(alloc, 1, &times)
}

// Gives back the counts that the frontier has passed.
fn give_back(counts: &mut Counts) {
    match counts.frontier(Loc::Mail(0)) {
        Frontier::At(time) => counts.drop_below(Loc::Mail(0), time),
        Frontier::Done => counts.drop_below(Loc::Mail(0), Time::MAX),
    }
}

// Adds to counts, and gives back what the frontier has passed then.
fn add_all(rt: &impl Abort, counts: &mut Counts, changes: &[(Time, i64)]) {
    for (time, by) in changes {
        add(rt, counts, *time, *by);
    }
    give_back(counts);
}

// These counts are there, and the frontier.
fn are_there(rt: &impl Abort, counts: &Counts, there: &[(Time, i128)], frontier: Frontier) {
    for (time, count) in there {
        let found = counts.at(Loc::Mail(0), *time);
        assert!(rt; found == *count);
    }
    assert!(rt; counts.frontier(Loc::Host(0)) == frontier);
}

// Counts in pieces that were given back stay 0, and those behind stay as they are.
fn give_back_first_pieces(rt: &impl Abort, counts: &mut Counts) {
    add_all(rt, counts, &[(4, 1), (2048, 1), (2500, 2), (4999, 3)]);
    are_there(rt, counts, &[(4, 1), (4999, 3)], Frontier::At(4));
    add_all(rt, counts, &[(4, -1)]);
    add_all(rt, counts, &[(4, 5), (2047, 6)]);
    are_there(rt, counts, &[(4, 0), (2047, 0)], Frontier::At(2048));
    are_there(
        rt,
        counts,
        &[(2048, 1), (2500, 2), (4999, 3)],
        Frontier::At(2048),
    );
}

// A piece in which the frontier stands is kept whole; all are given back once it is done.
fn give_back_last_pieces(rt: &impl Abort, counts: &mut Counts) {
    add_all(rt, counts, &[(2048, -1)]);
    add_all(rt, counts, &[(2100, 7)]);
    are_there(rt, counts, &[(2048, 0), (2100, 7)], Frontier::At(2100));
    add_all(rt, counts, &[(2100, -7), (2500, -2), (4999, -3)]);
    add_all(rt, counts, &[(4999, 8)]);
    are_there(rt, counts, &[(2500, 0), (4999, 0)], Frontier::Done);
}

#[test]
fn dropped_counts(rt: HostRuntime) -> Result<(), AllocError> {
    let mut counts = counts_below_5000(rt.alloc())?;
    give_back_first_pieces(&rt, &mut counts);
    give_back_last_pieces(&rt, &mut counts);
    Ok(())
}
