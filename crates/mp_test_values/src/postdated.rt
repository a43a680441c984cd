//! Wakes are added and sorted, and come by time and then by key, with ample memory.
use mp_postdated::Wakes;
use std::alloc::{AllocError, Global};

fn three_wakes(alloc: Global) -> Result<Wakes, AllocError> {
    let mut wakes = Wakes::new(alloc);
    wakes.add(7, 1)?;
    wakes.make_room(2)?;
    wakes.add_all(9, &[8, 5]);
    wakes.sort()?;
    Ok(wakes)
}

#[test]
fn wakes_come_by_time(rt: HostRuntime) -> Result<(), AllocError> {
    let wakes = three_wakes(rt.alloc())?;
    let came: Vec<(u64, u64)> = wakes.iter().copied().collect(rt.alloc())?;
    assert!(rt; came.as_slice() == [(5, 9), (7, 1), (8, 9)].as_slice());
    Ok(())
}
