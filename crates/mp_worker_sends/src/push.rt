//! How a message is sent.
ghost use Rattle.std.specs.Prelude.{◌≡◌, ◌<◌, ◌≤◌, IfErr, IfOk, OnErr, OnOk, length};
ghost use Rattle.mp_names.specs.Outlines.{OutlineIsSound};
ghost use Rattle.mp_outline.specs.JobOutline.{outline_of};
ghost use Rattle.mp_rows.specs.Entries.{AreChanges};
ghost use Rattle.mp_msg.specs.Bundles.{receiver_of};
ghost use Rattle.mp_worker_refinement.specs.Served.{IsAtPost, PostFollows};
ghost use Rattle.mp_worker_refinement.specs.Sending.{MaySend, with_all_sent};
ghost use Rattle.mp_worker_refinement.specs.Steps.{Tells};
ghost use Rattle.mp_model.specs.Tables.{table_of};

use mp_mailbox::Post;
use mp_model::{Naming, Query};
use mp_msg::{Msg, Names};
use mp_rows::{Change, Log, LogList, NewNames, OutlineOf};

// Pushes a message that the log's worker may send, and puts its names into the log, with what that
// changes at the counts. `Err`: the mailbox was full; the message comes back, and the log is as it was.
#[inline(always)]
pub(crate) fn send<Q: Query, J: Naming, P: Post<Msg<Q, J>>>(
    log: &mut Log<OutlineOf<Q, J>>,
    post: &mut P,
    to: u32,
    message: Msg<Q, J>,
    names: NewNames,
    changes: &[Change],
) -> Result<Names, Msg<Q, J>>
    requires outline { OutlineIsSound (outline_of (table_of Q.facts J.job) J.job) }
    requires worker { log.old.worker < J.job.shape.workers }
    requires may { MaySend (outline_of (table_of Q.facts J.job) J.job) log.old.worker log.old.log message }
    requires to { to ≡ receiver_of (outline_of (table_of Q.facts J.job) J.job) message }
    requires names { names ≡ message }
    requires changes { let o = outline_of (table_of Q.facts J.job) J.job in
        AreChanges o log.old.worker log.old.log (with_all_sent log.old.log message) changes.now }
    requires room { (length message ≤ log.old.room_for_names) × (length changes.now ≤ log.old.room_for_changes) }
    requires at_post { let o = outline_of (table_of Q.facts J.job) J.job in
        IsAtPost P.workers P.depth P.serves P.denotes o log.old.worker log.old.log post.old }

    ensures names { IfOk result (λ told. Tells told message) }
    ensures sent { OnOk result (log.new.log ≡ with_all_sent log.old.log message) }
    ensures room { OnOk result (P.had_room post.old log.old.worker to) }

    ensures back { IfErr result (λ m. m ≡ message) }
    ensures unchanged { OnErr result (log.new.log ≡ log.old.log) }
    ensures full { OnErr result (P.was_full post.old log.old.worker to) }

    ensures worker { log.new.worker ≡ log.old.worker }
    ensures posted { log.new.posted ≡ log.old.posted }
    ensures mail { let o = outline_of (table_of Q.facts J.job) J.job in
        PostFollows P.workers P.depth P.serves P.denotes P.waits o log.old.worker log.old.log log.new.log post.old post.new }
{
    let told = message.names();
    match post.push(log.worker(), to, message) {
        Ok(()) => {
            let Ok(()) = log.push_all(LogList::Sent, names, changes) else {
                unreachable!()
            };
            Ok(told)
        }
        Err(full) => Err(full.message),
    }
}
