//! The posts of two workers.
ghost use Rattle.std.specs.Prelude.{◌<◌, [], IfOk};
ghost use Rattle.mp_ruled.specs.Posts.{IsNewPost, RuledStands};
ghost use Rattle.mp_thread_examples.specs.Numbers.{value_list};

use crate::numbers::Number;
use mp_ruled::{RuledPost, ruled_posts};
use std::alloc::{AllocError, Global};

/// The posts of worker 0 and worker 1. `AllocError`: no memory.
pub fn two_posts<R: Copy + Drop>(
    rt: R,
    alloc: Global,
    depth: u32,
) -> Result<(RuledPost<Number, R>, RuledPost<Number, R>), AllocError>
    requires depth { 0 < depth }
    ensures first { IfOk result (λ r. IsNewPost 2 depth 0 r.0) }
    ensures second { IfOk result (λ r. IsNewPost 2 depth 1 r.1) }
    ensures first_stands { IfOk result (λ r. RuledStands value_list r.0 0 1 [] []) }
    ensures second_stands { IfOk result (λ r. RuledStands value_list r.1 0 1 [] []) }
{
    let mut posts = ruled_posts(rt, alloc, 2, depth)?;
    let Some(second) = posts.pop() else {
        unreachable!()
    };
    let Some(first) = posts.pop() else {
        unreachable!()
    };
    Ok((first, second))
}
