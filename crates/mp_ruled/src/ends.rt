//! How a queue is made, with its two ends.
ghost use Rattle.std.specs.Prelude.{◌≡◌, ◌<◌, IfOk};
ghost use Rattle.mp_ruled.specs.Ends.{IsNewEnd};

use crate::receiver::ReceiverEnd;
use crate::rule::{Edge, Queue, TwoEnds};
use crate::sender::SenderEnd;
use mp_mailbox::Named;
use std::alloc::{AllocError, Global};
use std::marker::Brand;
use std::sync::Arc;

/// A queue from one worker to another that holds `depth` messages, as its two ends. No later call takes
/// memory. `AllocError`: no memory.
pub fn ends_between<M: Named + Drop>(
    alloc: Global,
    from: u32,
    to: u32,
    depth: u32,
) -> Result<(SenderEnd<M>, ReceiverEnd<M>), AllocError>
    requires depth { 0 < depth }
    ensures sender { IfOk result (λ r. IsNewEnd from to depth r.0) }
    ensures receiver { IfOk result (λ r. IsNewEnd from to depth r.1) }
    ensures queue { IfOk result (λ r. r.0.queue ≡ r.1.queue) }
{
    ends_of::<M, Brand>(alloc, from, to, depth)
}

// The same, where the edge is picked.
fn ends_of<M: Named + Drop, E: Edge>(
    alloc: Global,
    from: u32,
    to: u32,
    depth: u32,
) -> Result<(SenderEnd<M>, ReceiverEnd<M>), AllocError>
    requires depth { 0 < depth }
    requires edge { (from ≡ E.from) × (to ≡ E.to) × (depth ≡ E.depth) }
    ensures sender { IfOk result (λ r. IsNewEnd from to depth r.0) }
    ensures receiver { IfOk result (λ r. IsNewEnd from to depth r.1) }
    ensures queue { IfOk result (λ r. r.0.queue ≡ r.1.queue) }
{
    let _ = (from, to);
    let (queue, mut pass) = Queue::ruled(alloc, depth as usize)?;
    let other = queue.another::<TwoEnds<E>>(&mut pass);
    let queue = Arc::new(alloc, queue)?;
    let theirs = Arc::try_clone(&queue)?;
    Ok((
        SenderEnd { queue, pass },
        ReceiverEnd {
            queue: theirs,
            pass: other,
        },
    ))
}
