//! How a worker sends records.
ghost use Rattle.std.specs.Prelude.{◌<◌};
ghost use Rattle.mp_names.specs.declared.kinds.Kind.TheVariants.{Route};
ghost use Rattle.mp_outline.specs.JobOutline.{outline_of};
ghost use Rattle.mp_worker_refinement.specs.Served.{IsAtPost, PostFollows};
ghost use Rattle.mp_worker_refinement.specs.Steps.{StepsByMail};
ghost use Rattle.mp_model.specs.Tables.{table_of};

use crate::push::send;
use mp_bins::bin_of;
use mp_mailbox::Post;
use mp_model::{Naming, Query};
use mp_msg::{Body, Msg, Names};
use mp_names::Loc;
use mp_names::limits::MAX_BUNDLE;
use mp_rows::NewNames;
use mp_worker_parts::{Parts, many_less, many_more};
use std::alloc::AllocError;

/// The least record that a stage's router holds goes to the owner of its bin, once the owner is known, and with it those of
/// its time that go there too, the first 64 in all, in one message: its names, or `None` exactly where no record may go or
/// the mailbox was full. `AllocError`: no memory, and nothing changes.
pub fn route<'a, Q: Query, J: Naming, P: Post<Msg<Q, J>>>(
    parts: &mut Parts<'a, Q, J>,
    stage: u32,
    post: &mut P,
) -> Result<Option<Names>, AllocError>
    requires stage { stage < J.job.shape.stages }
    requires at_post { let o = outline_of (table_of Q.facts J.job) J.job in
        IsAtPost P.workers P.depth P.serves P.denotes o parts.old.worker.number parts.old.worker.log post.old }
    ensures steps { let o = outline_of (table_of Q.facts J.job) J.job in
        StepsByMail (P.had_room post.old) (P.was_full post.old) (P.was_empty post.old) o (Route stage) parts.old.worker parts.new.worker result }
    ensures mail { let o = outline_of (table_of Q.facts J.job) J.job in
        PostFollows P.workers P.depth P.serves P.denotes P.waits o parts.old.worker.number parts.old.worker.log parts.new.worker.log post.old post.new }
{
    parts.log.make_room(MAX_BUNDLE as u64)?;
    let router = &mut parts.routers[stage as usize];
    let bins = parts.job.shape().bins;
    let Some(bundle) = router.send_some(parts.alloc, &parts.seen, &parts.owners, bins)? else {
        return Ok(None);
    };
    let recs = bundle.recs();
    let rec = &recs[0];
    let owner = parts.owners.owner(stage, bin_of(rec.key, bins), rec.time);
    let changes = [
        many_less(Loc::Route(stage), rec.time, recs.len()),
        many_more(Loc::Mail(stage), rec.time, recs.len()),
    ];
    let names = NewNames::of_records(stage, recs);
    let message = Msg::records(bundle);
    let message = match send(&mut parts.log, post, owner, message, names, &changes) {
        Ok(told) => return Ok(Some(told)),
        Err(message) => message,
    };
    let Body::Recs(bundle) = message.into_body() else {
        unreachable!()
    };
    router.give_back(bundle);
    Ok(None)
}
