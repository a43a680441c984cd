//! How worker 0 sends control records.
ghost use Rattle.mp_names.specs.declared.kinds.Kind.TheVariants.{SendControl};
ghost use Rattle.mp_outline.specs.JobOutline.{outline_of};
ghost use Rattle.mp_worker_refinement.specs.Served.{IsAtPost, PostFollows};
ghost use Rattle.mp_worker_refinement.specs.Steps.{StepsByMail};
ghost use Rattle.mp_model.specs.Tables.{table_of};

use crate::push::send;
use mp_mailbox::Post;
use mp_model::{Naming, Query};
use mp_msg::{Msg, Names};
use mp_names::{Loc, Name};
use mp_rows::NewNames;
use mp_worker_parts::{Parts, one_less, one_more};
use std::alloc::AllocError;

/// Worker 0 sends the next control record to its next receiver, itself among them: its name, or `None` exactly where all
/// are sent, the run is paced and moves of earlier times aren't over, the mailbox was full, or this is another worker.
/// `AllocError`: no memory, and nothing changes.
#[tactic(auto, using(crate::proofs::Kept::messages_stay))]
pub fn send_control<'a, Q: Query, J: Naming, P: Post<Msg<Q, J>>>(
    parts: &mut Parts<'a, Q, J>,
    post: &mut P,
) -> Result<Option<Names>, AllocError>
    requires at_post { let o = outline_of (table_of Q.facts J.job) J.job in
        IsAtPost P.workers P.depth P.serves P.denotes o parts.old.worker.number parts.old.worker.log post.old }
    ensures steps { let o = outline_of (table_of Q.facts J.job) J.job in
        StepsByMail (P.had_room post.old) (P.was_full post.old) (P.was_empty post.old) o SendControl parts.old.worker parts.new.worker result }
    ensures mail { let o = outline_of (table_of Q.facts J.job) J.job in
        PostFollows P.workers P.depth P.serves P.denotes P.waits o parts.old.worker.number parts.old.worker.log parts.new.worker.log post.old post.new }
{
    parts.log.make_room(2)?;
    if parts.log.worker() != 0 {
        return Ok(None);
    }
    let Some(name) = parts.controller.next(&parts.seen) else {
        return Ok(None);
    };
    let Name::Ctrl { index, to } = name else {
        unreachable!()
    };
    let control = parts.job.controls()[index as usize];
    let changes = [
        one_less(Loc::Ctl, control.time),
        one_more(Loc::CtlMail, control.time),
    ];
    let message = Msg::control(index, to, control);
    let names = NewNames::one(name);
    let Ok(told) = send(&mut parts.log, post, to, message, names, &changes) else {
        return Ok(None);
    };
    parts.controller.sent();
    Ok(Some(told))
}
