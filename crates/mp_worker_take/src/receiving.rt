//! How a worker takes messages.
ghost use Rattle.std.specs.Prelude.{◌<◌};
ghost use Rattle.mp_names.specs.declared.kinds.Kind.TheVariants.{Receive};
ghost use Rattle.mp_outline.specs.JobOutline.{outline_of};
ghost use Rattle.mp_worker_refinement.specs.Served.{IsAtPost, PostFollows};
ghost use Rattle.mp_worker_refinement.specs.Steps.{StepsByMail};
ghost use Rattle.mp_model.specs.Tables.{table_of};

use crate::room::make_room_to_take;
use crate::take::take;
use mp_mailbox::Post;
use mp_model::{Naming, Query};
use mp_msg::{Msg, Names};
use mp_worker_parts::Parts;
use std::alloc::AllocError;

/// The message that waits longest in the mailbox from a worker is taken: a control record is noted, records go to the
/// host of their stage, and so does the state of a bin that moves; an answer row goes to those to be written. Its names, or
/// `None` exactly where the mailbox was empty. Room is made only where the post doesn't say that it is empty, so most
/// looks take no memory. `AllocError`: no memory for what a message may bring, and nothing changes.
pub fn receive<'a, Q: Query, J: Naming, P: Post<Msg<Q, J>>>(
    parts: &mut Parts<'a, Q, J>,
    from: u32,
    post: &mut P,
) -> Result<Option<Names>, AllocError>
    requires from { from < J.job.shape.workers }
    requires at_post { let o = outline_of (table_of Q.facts J.job) J.job in
        IsAtPost P.workers P.depth P.serves P.denotes o parts.old.worker.number parts.old.worker.log post.old }
    ensures steps { let o = outline_of (table_of Q.facts J.job) J.job in
        StepsByMail (P.had_room post.old) (P.was_full post.old) (P.was_empty post.old) o (Receive from) parts.old.worker parts.new.worker result }
    ensures mail { let o = outline_of (table_of Q.facts J.job) J.job in
        PostFollows P.workers P.depth P.serves P.denotes P.waits o parts.old.worker.number parts.old.worker.log parts.new.worker.log post.old post.new }
{
    let number = parts.number();
    if post.is_empty(from, number) {
        return Ok(None);
    }
    make_room_to_take(parts)?;
    let Some(message) = post.pop(from, number) else {
        return Ok(None);
    };
    let names = message.names();
    take(parts, message);
    Ok(Some(names))
}
