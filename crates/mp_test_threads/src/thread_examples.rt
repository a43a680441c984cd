//! The worked examples of the seat lock and of mailboxes between threads.
ghost use Rattle.std.specs.Prelude.{◌≡◌, ◌+◌, ◌<◌, ◌≤◌, [], IsSome, Some, length, slice_get, slice_set, List, ℕ};
ghost use Rattle.mp_ruled.specs.Posts.{RuledStands};
ghost use Rattle.mp_seat.specs.Seats.{IsIdle, resting};
ghost use Rattle.mp_thread_examples.specs.Numbers.{value_list};

use mp_mailbox::Post;
use mp_seat::{Rows, Seat, SeatLock};
use mp_thread_examples::{
    Clerk, Counts, Number, close_two, count_in_two, open_two, receive, receive_all, relay, send,
    send_all, two_posts,
};
use std::alloc::{AllocError, Global};
use std::process::Abort;
use std::sync::{Arc, Wait};
use std::thread::{Threads, join};

// So many times the first number was raised, and so many times any.
fn are(rt: &impl Abort, counts: &Counts, left: u64, raised: u64) {
    assert!(rt; counts.left() == left && counts.raised() == raised);
}

#[test]
fn thousand_exchanges(rt: HostRuntime) -> Result<(), AllocError> {
    let counts = count_in_two(&rt, rt.alloc())?;
    are(&rt, &counts, 1000, 2000);
    Ok(())
}

// As many numbers as come of those below `count`, from one thread to another, by the posts of two workers.
fn relay_by_posts<R: Threads + Wait + Copy + Drop + Send + Sync>(
    rt: R,
    alloc: Global,
    count: u32,
    depth: u32,
) -> Result<Vec<u64>, AllocError>
    requires depth { 0 < depth }
{
    let (first, second) = two_posts(rt, alloc, depth)?;
    let into = Vec::with_capacity(alloc, count as usize)?;
    let shared = &rt;
    let (_first, (_second, got)) = join(
        shared,
        move ||
            requires { (0 ≡ first.worker) × (1 < length first.senders) × RuledStands value_list first 0 1 [] [] }
        { send_all(shared, first, u64::from(count)) },
        move ||
            requires { (1 ≡ second.worker) × (1 < length second.senders) × RuledStands value_list second 0 1 [] into.items }
        { receive_all(shared, second, into, count as usize) },
    );
    Ok(got)
}

#[test]
fn thousand_messages(rt: HostRuntime) -> Result<(), AllocError> {
    let alloc = rt.alloc();
    are_in_order(&rt, relay(&rt, alloc, 1000, 1)?.as_slice());
    are_in_order(&rt, relay_by_posts(rt, alloc, 1000, 1)?.as_slice());
    Ok(())
}

// All numbers below 1,000 have come, in order.
fn are_in_order(rt: &impl Abort, got: &[u64]) {
    assert!(rt; got.len() == 1000);
    for (i, number) in got.iter().enumerate() {
        assert!(rt; *number == i as u64);
    }
}

// Raises the number of a seat that holds the numbers, and puts them.
fn raise_and_put(
    lock: &SeatLock<Counts>,
    seat: &mut Seat<Counts>,
    mut counts: Counts,
    at: u32,
    number: u64,
)
    requires seat { (seat.old.lock ≡ lock.now.id) × (seat.old.number ≡ at) × (seat.old.version ≤ counts.1) }
    requires holds { seat.old.taken ≡ Some counts.0 }
    requires number { (slice_get counts.0 at ≡ Some number) × (number < 1000) }
    ensures { seat.new ≡ resting seat.old (slice_set counts.0 at (number + 1)) (counts.1 + 1) }
{
    counts.raise(at, number);
    lock.put(seat, counts);
}

// The first seat takes the numbers, the second one finds them away, and then the first one puts them.
fn raise_first(
    rt: &impl Abort,
    lock: &SeatLock<Counts>,
    first: &mut Seat<Counts>,
    second: &mut Seat<Counts>,
)
    requires first { IsIdle lock.now first.old × (first.old.number ≡ 0) × (first.old.row ≡ Some 0) }
    requires second { IsIdle lock.now second.old }
    ensures first { IsIdle lock.now first.new × (first.new.number ≡ 0) }
    ensures second { second.new ≡ second.old }
{
    let counts = lock.try_take(first).expect(rt, "the numbers");
    assert!(rt; lock.try_take(second).is_none());
    raise_and_put(lock, first, counts, 0, 0);
}

// The second seat finds the first number raised, and raises its own.
fn raise_second(rt: &impl Abort, lock: &SeatLock<Counts>, second: &mut Seat<Counts>)
    requires { IsIdle lock.now second.old × (second.old.number ≡ 1) × (second.old.row ≡ Some 0) }
{
    let counts = lock.try_take(second).expect(rt, "the numbers");
    are(rt, &counts, 1, 1);
    raise_and_put(lock, second, counts, 1, 0);
}

#[test]
fn two_seats(rt: HostRuntime) -> Result<(), AllocError> {
    let (lock, mut first, mut second) = open_two(rt.alloc())?;
    raise_first(&rt, &lock, &mut first, &mut second);
    raise_second(&rt, &lock, &mut second);
    let counts = lock.take(&rt, &mut first);
    are(&rt, &counts, 1, 2);
    Ok(())
}

// The seats are given in another order than that of their numbers.
#[test]
fn closed_in_another_order(rt: HostRuntime) -> Result<(), AllocError> {
    let seats = Vec::with_capacity(rt.alloc(), 2)?;
    let (lock, mut first, mut second) = open_two(rt.alloc())?;
    assert!(rt; first.number() == 0 && second.number() == 1);
    raise_first(&rt, &lock, &mut first, &mut second);
    let counts = close_two(lock, seats, second, first);
    are(&rt, &counts, 1, 1);
    Ok(())
}

// Where a lock has one seat, its take never finds the value away.
fn take_alone<T: Rows>(lock: &SeatLock<T>, seat: &mut Seat<T>) -> Option<T>
    requires { IsIdle lock.now seat.old × (seat.old.seats ≡ 1) × (seat.old.number ≡ 0) }
    ensures { IsSome result }
{
    lock.try_take(seat)
}

// The clerk raises the number of the first seat, and finds the numbers away while the second one holds them.
fn turn_twice(
    rt: &impl Abort,
    clerk: &mut Clerk,
    lock: &SeatLock<Counts>,
    second: &mut Seat<Counts>,
)
    requires clerk { clerk.old.number ≡ 0 }
    requires second { IsIdle lock.now second.old }
{
    assert!(rt; clerk.turn());
    let counts = lock.try_take(second).expect(rt, "the numbers");
    assert!(rt; counts.left() == 1);
    assert!(rt; !clerk.turn());
}

#[test]
fn clerk_takes_turns(rt: HostRuntime) -> Result<(), AllocError> {
    let alloc = rt.alloc();
    let (lock, first, mut second) = open_two(alloc)?;
    let lock = Arc::new(alloc, lock)?;
    let mut clerk = Clerk::new(Arc::try_clone(&lock)?, first, 0, 0);
    turn_twice(&rt, &mut clerk, &lock, &mut second);
    Ok(())
}

// Two pushes into a mailbox, two pops, and the second push again.
fn push_and_pop_in_turns<P: Post<Number>, Q: Post<Number>>(
    rt: &impl Abort,
    first: &mut P,
    second: &mut Q,
    got: &mut Vec<u64>,
) -> Result<(), AllocError>
    requires first { P.serves first.old 0 × (1 < P.workers first.old) × ((popped : List ℕ) × P.denotes first.old 0 1 [] popped) }
    requires second { Q.serves second.old 1 × (1 < Q.workers second.old) × ((pushed : List ℕ) × Q.denotes second.old 0 1 pushed got.old.items) }
{
    assert!(rt; send(first, 0).is_ok());
    assert!(rt; send(first, 1).is_err());
    let took = receive(second, got)?;
    let more = receive(second, got)?;
    assert!(rt; took && !more);
    assert!(rt; second.is_empty(0, 1));
    assert!(rt; send(first, 1).is_ok());
    assert!(rt; !second.is_empty(0, 1));
    Ok(())
}

#[test]
fn mailbox_of_one(rt: HostRuntime) -> Result<(), AllocError> {
    let alloc = rt.alloc();
    let (mut first, mut second) = two_posts(rt, alloc, 1)?;
    let mut got = Vec::new(alloc);
    push_and_pop_in_turns(&rt, &mut first, &mut second, &mut got)?;
    assert!(rt; got.as_slice() == [0].as_slice());
    Ok(())
}
