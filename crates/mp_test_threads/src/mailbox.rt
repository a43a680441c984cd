//! A worker that sends and a worker that takes, over plain queues.
ghost use Rattle.std.specs.Prelude.{◌<◌, []};

use mp_mailbox::{PlainPost, Post};
use mp_thread_examples::{Number, receive, send};
use std::alloc::AllocError;
use std::process::Abort;

// Two pushes into a mailbox, two pops, and the second push again.
fn push_and_pop(
    rt: &impl Abort,
    post: &mut PlainPost<Number>,
    got: &mut Vec<u64>,
) -> Result<(), AllocError>
    requires workers { 1 < post.old.workers }
    requires denotes { ⟦<PlainPost<Number> as Post<Number>>⟧.denotes post.old 0 1 [] got.old.items }
{
    assert!(rt; send(post, 0).is_ok());
    assert!(rt; send(post, 1).is_err());
    let took = receive(post, got)?;
    let more = receive(post, got)?;
    assert!(rt; took && !more);
    assert!(rt; post.is_empty(0, 1));
    assert!(rt; send(post, 1).is_ok());
    assert!(rt; !post.is_empty(0, 1));
    Ok(())
}

#[test]
fn mailbox_of_one(rt: HostRuntime) -> Result<(), AllocError> {
    let alloc = rt.alloc();
    let mut post = PlainPost::<Number>::new(alloc, 2, 1)?;
    let mut got = Vec::new(alloc);
    push_and_pop(&rt, &mut post, &mut got)?;
    assert!(rt; got.as_slice() == [0].as_slice());
    Ok(())
}
