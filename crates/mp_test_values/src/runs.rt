//! Numbers in ascending order, those of the same tens together, with ample memory.
use mp_ordered::Order;
use mp_ordered_runs::{Kinds, OrderedRuns};
use std::alloc::{AllocError, Global};
use std::process::Abort;

struct ByTens;

impl Order<u64> for ByTens {
    ghost use Rattle.std.specs.Prelude.{◌∷◌, []};

    ghost rank = { λ n. n ∷ [] };

    fn is_before(first: &u64, second: &u64) -> bool {
        first < second
    }
}

impl Kinds<u64> for ByTens {
    ghost use Rattle.std.specs.Prelude.{◌/◌, ◌==◌};

    ghost same = { λ m n. m / 10 == n / 10 };

    fn is_same(first: &u64, second: &u64) -> bool {
        first / 10 == second / 10
    }
}

// The numbers below 700, put in out of order.
fn below_700(alloc: Global) -> Result<OrderedRuns<u64, ByTens>, AllocError> {
    let mut numbers = OrderedRuns::<u64, ByTens>::new(alloc);
    for place in 0..700 {
        if place % 64 == 0 {
            numbers.make_room(64)?;
        }
        numbers.insert(place * 463 % 700)?;
    }
    Ok(numbers)
}

// Takes out the runs of the numbers below 700, each of which is the ten numbers of its tens.
fn take_all(rt: &impl Abort, numbers: &mut OrderedRuns<u64, ByTens>) {
    for tens in 0..70 {
        assert!(rt; numbers.get(9).copied() == Some(tens * 10 + 9));
        let count = numbers.first_run().len();
        assert!(rt; count == 10);
        numbers.drop_first(count);
    }
}

#[test]
fn mixed_numbers_come_in_runs(rt: HostRuntime) -> Result<(), AllocError> {
    let mut numbers = below_700(rt.alloc())?;
    take_all(&rt, &mut numbers);
    Ok(())
}
