//! How a worker sends answer rows.
ghost use Rattle.mp_names.specs.declared.kinds.Kind.TheVariants.{SendRow};
ghost use Rattle.mp_outline.specs.JobOutline.{outline_of};
ghost use Rattle.mp_worker_refinement.specs.Served.{IsAtPost, PostFollows};
ghost use Rattle.mp_worker_refinement.specs.Steps.{StepsByMail};
ghost use Rattle.mp_model.specs.Tables.{table_of};

use crate::push::send;
use mp_mailbox::Post;
use mp_model::{Naming, Output, Query, Value};
use mp_msg::{Body, Msg, Names};
use mp_names::{Loc, Name};
use mp_rows::NewNames;
use mp_worker_parts::{Parts, one_less, one_more};
use std::alloc::AllocError;

/// The least answer row that the worker has to send goes to worker 0: its name, or `None` exactly where there is none
/// or the mailbox was full. `AllocError`: no memory, and nothing changes.
#[tactic(auto, using(crate::proofs::Kept::messages_stay))]
pub fn send_row<'a, Q: Query, J: Naming, P: Post<Msg<Q, J>>>(
    parts: &mut Parts<'a, Q, J>,
    post: &mut P,
) -> Result<Option<Names>, AllocError>
    requires at_post { let o = outline_of (table_of Q.facts J.job) J.job in
        IsAtPost P.workers P.depth P.serves P.denotes o parts.old.worker.number parts.old.worker.log post.old }
    ensures steps { let o = outline_of (table_of Q.facts J.job) J.job in
        StepsByMail (P.had_room post.old) (P.was_full post.old) (P.was_empty post.old) o SendRow parts.old.worker parts.new.worker result }
    ensures mail { let o = outline_of (table_of Q.facts J.job) J.job in
        PostFollows P.workers P.depth P.serves P.denotes P.waits o parts.old.worker.number parts.old.worker.log parts.new.worker.log post.old post.new }
{
    parts.log.make_room(2)?;
    let Some(Output { time, tag, value }) = parts.unsent.pop_first() else {
        return Ok(None);
    };
    let Value::Row(fields) = value else {
        unreachable!()
    };
    let changes = [one_less(Loc::OutRoute, time), one_more(Loc::OutMail, time)];
    let row = Msg::row(time, tag, fields);
    let names = NewNames::one(Name::Row { time, tag });
    let message = match send(&mut parts.log, post, 0, row, names, &changes) {
        Ok(told) => return Ok(Some(told)),
        Err(message) => message,
    };
    let Body::Row { time, tag, fields } = message.into_body() else {
        unreachable!()
    };
    let value = Value::Row(fields);
    parts.unsent.hold(Output { time, tag, value })?;
    Ok(None)
}
