//! The first of many wakes.
ghost use Rattle.std.specs.Prelude.{◌≡◌, None, replicate};

use mp_names::Time;
use mp_tournament::Firsts;
use std::alloc::AllocError;
use std::process::Abort;

fn first_is(rt: &impl Abort, firsts: &Firsts, wake: Option<(Time, u64)>) {
    assert!(rt; firsts.first() == wake);
}

// A wake comes at place 1, then one that is earlier by its key at place 0, which goes again.
fn follow_changes(rt: &impl Abort, firsts: &mut Firsts)
    requires { firsts.old ≡ replicate 3 None }
{
    first_is(rt, firsts, None);
    firsts.set(1, Some((20, 7)));
    first_is(rt, firsts, Some((20, 7)));
    firsts.set(0, Some((20, 5)));
    first_is(rt, firsts, Some((20, 5)));
    firsts.set(0, None);
    first_is(rt, firsts, Some((20, 7)));
}

#[test]
fn the_first_wake_follows_changes(rt: HostRuntime) -> Result<(), AllocError> {
    let mut firsts = Firsts::new(rt.alloc(), 3)?;
    follow_changes(&rt, &mut firsts);
    Ok(())
}
