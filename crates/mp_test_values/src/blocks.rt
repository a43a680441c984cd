//! Numbers in ascending order in blocks, parted by a limit, with ample memory.
use mp_ordered::{Cut, Order, OrderedBlocks};
use std::alloc::{AllocError, Global};
use std::process::Abort;

struct Rising;

impl Order<u64> for Rising {
    ghost use Rattle.std.specs.Prelude.{◌∷◌, []};

    ghost rank = { λ n. n ∷ [] };

    fn is_before(first: &u64, second: &u64) -> bool {
        first < second
    }
}

/// Numbers below a limit.
#[derive(Drop)]
struct Below {
    limit: u64,
}

impl Cut<u64> for Below {
    ghost use Rattle.std.specs.Prelude.{◌∷◌, []};
    ghost use Rattle.mp_names.specs.Names.{is_before};

    ghost front = { λ c n. is_before (n ∷ []) (c.limit ∷ []) };

    fn is_in_front(&self, item: &u64) -> bool {
        *item < self.limit
    }
}

// Takes out the last number below a limit.
fn take_below(numbers: &mut OrderedBlocks<u64, Rising>, limit: u64) -> Option<u64> {
    let _ = numbers.first();
    let cut = Below { limit };
    numbers.last_in_front(&cut)?;
    Some(numbers.take_last_in_front(&cut))
}

// Drops the numbers below a limit, and says how many they were.
fn drop_below(numbers: &mut OrderedBlocks<u64, Rising>, limit: u64) -> usize {
    let _ = numbers.first();
    let count = numbers.count_in_front(&Below { limit });
    numbers.drop_first(count);
    count
}

// The numbers below 300, put in out of order.
fn below_300(alloc: Global) -> Result<OrderedBlocks<u64, Rising>, AllocError> {
    let mut numbers = OrderedBlocks::<u64, Rising>::new(alloc);
    numbers.make_room(300)?;
    for place in 0..300 {
        numbers.insert(place * 7 % 300)?;
    }
    Ok(numbers)
}

// Takes numbers out of those below 300.
fn come_out(rt: &impl Abort, numbers: &mut OrderedBlocks<u64, Rising>) {
    assert!(rt; take_below(numbers, 150) == Some(149));
    assert!(rt; drop_below(numbers, 296) == 295);
}

fn are_left(
    rt: &impl Abort,
    numbers: &OrderedBlocks<u64, Rising>,
    left: &[u64],
) -> Result<(), AllocError> {
    let found = numbers.to_vec()?;
    assert!(rt; found.as_slice() == left);
    Ok(())
}

#[test]
fn numbers_are_parted(rt: HostRuntime) -> Result<(), AllocError> {
    let mut numbers = below_300(rt.alloc())?;
    come_out(&rt, &mut numbers);
    are_left(&rt, &numbers, &[296, 297, 298, 299])
}
