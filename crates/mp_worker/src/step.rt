//! One step of a worker.
ghost use Rattle.std.specs.Prelude.{◌≡◌, ◌≢◌, ◌↔◌, ℕ, Err, IsSome, IsTrue, Ok, Some, option_map};
ghost use Rattle.mp_names.specs.declared.kinds.Kind.TheVariants.{Exchange, Write};
ghost use Rattle.mp_names.specs.Outlines.{Outline};
ghost use Rattle.mp_machine.specs.Steps.{KindFits};
ghost use Rattle.mp_outside.specs.Sink.{OnlyAppends};
ghost use Rattle.mp_outline.specs.JobOutline.{outline_of};
ghost use Rattle.mp_worker_refinement.specs.Served.{IsAtHub, IsAtPost, PostFollows};
ghost use Rattle.mp_worker_refinement.specs.Steps.{StepsByMail};
ghost use Rattle.mp_turns.specs.declared.turn.Stop.TheVariants.{Memory};
ghost use Rattle.mp_turns.specs.declared.turn.Turn.TheVariants as turn;
ghost use Rattle.mp_worker.specs.Exchanging.{Exchanges};
ghost use Rattle.mp_turns.specs.Keeping.{steps_after};
ghost use Rattle.mp_worker.specs.Keeping.{StepsTellLog, with_steps};
ghost use Rattle.mp_worker.specs.Stepping.{StepsAtHub, StepsAtPost, StepsAtSink};
ghost use Rattle.mp_worker.specs.Turns.{Answers};
ghost use Rattle.mp_worker.specs.Writing.{WritesInTurn};
ghost use Rattle.mp_model.specs.Tables.{table_of};

use crate::exchange::exchange;
use crate::{Stop, Turn, Worker};
use mp_board::{Hub, OutlineOf};
use mp_mailbox::Post;
use mp_model::{Naming, Query};
use mp_msg::{Msg, Names};
use mp_names::{Kept, Kind, Shape};
use mp_outside::Sink;
use mp_turns::{keep, turn_of};
use mp_worker_apply::apply;
use mp_worker_sends::{Parts, extract, route, send_control, send_row};
use mp_worker_steps::{ingest, settle, write};
use mp_worker_take::receive;
use std::alloc::AllocError;

impl<'a, Q: Query, J: Naming> Worker<'a, Q, J> {
    /// Makes one step of this kind, as the machine has it, if its condition is true. The post and the hub serve this worker:
    /// at its ends the post stands for what its log has as sent and taken, and the hub has the log that it posted last.
    /// `Did`: the step was made, and its names put into the log. `Seen`: an exchange posted the log and saw a version of the
    /// board that is later than the one that the worker had seen. `NotNow`: where the step's condition is false, as it is
    /// where the job doesn't have what the kind names. `Busy` and `Other`: only of an exchange, where the hub says so.
    /// `Memory`: no memory, and of an exchange, which takes none else, only where the worker keeps its steps: there each step
    /// of a kind that the job has makes room to be kept before anything else. `Write`: only of a write, where the sink's
    /// count of faults rose in this call or stands at its last value, 2^64 - 1. Only `Did` and `Seen` change the worker, its
    /// mailboxes and what is posted, and are kept where steps are; only a write changes the sink: where it answers `Memory`
    /// or `Write` a part of the lines from their front may be written.
    // Inlined, so that where the kind is known nothing is asked of it, and of the answer only what is read is made.
    #[inline(always)]
    pub fn step<P: Post<Msg<Q, J>>, H: Hub<OutlineOf<Q, J>>, S: Sink>(
        &mut self,
        kind: Kind,
        post: &mut P,
        hub: &mut H,
        sink: &mut S,
    ) -> Result<Turn, Stop>
        requires at_post { let o = outline_of (table_of Q.facts J.job) J.job in
            IsAtPost P.workers P.depth P.serves P.denotes o self.old.number self.old.log post.old }
        requires at_hub { IsAtHub H.serves H.posted H.version self.old hub.old }

        ensures answers { let o = outline_of (table_of Q.facts J.job) J.job in
            Answers (P.had_room post.old) (P.was_full post.old) (P.was_empty post.old) o kind self.old self.new result }
        ensures fits { (KindFits (outline_of (table_of Q.facts J.job) J.job) kind → ⊥) → result ≡ Ok turn.NotNow }
        ensures mail { let o = outline_of (table_of Q.facts J.job) J.job in
            PostFollows P.workers P.depth P.serves P.denotes P.waits o self.old.number self.old.log self.new.log post.old post.new }

        ensures keeps { self.new.steps ≡ steps_after self.old.steps kind result }
        ensures memory { kind ≡ Exchange → result ≡ Err Memory → IsSome self.old.steps }

        // The board.
        ensures exchanges { kind ≡ Exchange
            → Exchanges H.after H.kept H.shows H.goes_on H.was_stopped H.was_busy self.old self.new hub.old hub.new result }
        ensures others_post_nothing { (kind ≢ Exchange) → hub.new ≡ hub.old }
        ensures at_hub { IsAtHub H.serves H.posted H.version self.new hub.new }
        ensures still_serves { (w : ℕ) → H.serves hub.old w → H.serves hub.new w }

        // The sink.
        ensures writes { kind ≡ Write
            → WritesInTurn (table_of Q.facts J.job) J.job S.written S.faults self.old sink.old sink.new result }
        ensures others_write_nothing { (kind ≢ Write) → sink.new ≡ sink.old }
        ensures appends_only { OnlyAppends S.frame S.faults sink.old sink.new }
    {
        make_step(&mut self.parts, &mut self.kept, kind, post, hub, sink)
    }
}

// The same, of the parts of a worker and the steps that it keeps, where it keeps them.
#[inline(always)]
fn make_step<Q: Query, J: Naming, P: Post<Msg<Q, J>>, H: Hub<OutlineOf<Q, J>>, S: Sink>(
    parts: &mut Parts<'_, Q, J>,
    kept: &mut Option<Vec<Kept>>,
    kind: Kind,
    post: &mut P,
    hub: &mut H,
    sink: &mut S,
) -> Result<Turn, Stop>
    requires at_post { let o = outline_of (table_of Q.facts J.job) J.job in
        IsAtPost P.workers P.depth P.serves P.denotes o parts.old.worker.number parts.old.worker.log post.old }
    requires at_hub { IsAtHub H.serves H.posted H.version parts.old.worker hub.old }
    ensures fits { (KindFits (outline_of (table_of Q.facts J.job) J.job) kind → ⊥) → result ≡ Ok turn.NotNow }
    ensures keeps { option_map (λ now. now.items) kept.new ≡ steps_after (option_map (λ old. old.items) kept.old) kind result }
    ensures memory { kind ≡ Exchange → result ≡ Err Memory → IsSome kept.old }
    ensures tell { StepsTellLog (with_steps (option_map (λ old. old.items) kept.old) parts.old.worker) → StepsTellLog (with_steps (option_map (λ now. now.items) kept.new) parts.new.worker) }
    ensures post { let o = outline_of (table_of Q.facts J.job) J.job in
        StepsAtPost P.workers P.depth P.serves P.denotes P.waits P.had_room P.was_full P.was_empty o kind
        (with_steps (option_map (λ old. old.items) kept.old) parts.old.worker) (with_steps (option_map (λ now. now.items) kept.new) parts.new.worker) post.old post.new result }
    ensures hub { StepsAtHub H.serves H.posted H.version H.after H.kept H.shows H.goes_on H.was_stopped H.was_busy kind
        (with_steps (option_map (λ old. old.items) kept.old) parts.old.worker) (with_steps (option_map (λ now. now.items) kept.new) parts.new.worker) hub.old hub.new result }
    ensures sink { StepsAtSink (table_of Q.facts J.job) J.job S.written S.frame S.faults kind
        (with_steps (option_map (λ old. old.items) kept.old) parts.old.worker) sink.old sink.new result }
{
    if !fits(kind, parts.shape()) {
        return Ok(Turn::NotNow);
    }
    match kept {
        Some(kept) => step_and_keep(parts, kept, kind, post, hub, sink),
        None => step_alone(parts, kind, post, hub, sink),
    }
}

// A step of a kind that the job has, by parts of a worker that keeps its steps.
#[inline(never)]
fn step_and_keep<Q: Query, J: Naming, P: Post<Msg<Q, J>>, H: Hub<OutlineOf<Q, J>>, S: Sink>(
    parts: &mut Parts<'_, Q, J>,
    kept: &mut Vec<Kept>,
    kind: Kind,
    post: &mut P,
    hub: &mut H,
    sink: &mut S,
) -> Result<Turn, Stop>
    requires fits { KindFits (outline_of (table_of Q.facts J.job) J.job) kind }
    requires at_post { let o = outline_of (table_of Q.facts J.job) J.job in
        IsAtPost P.workers P.depth P.serves P.denotes o parts.old.worker.number parts.old.worker.log post.old }
    requires at_hub { IsAtHub H.serves H.posted H.version parts.old.worker hub.old }
    ensures keeps { Some kept.new.items ≡ steps_after (Some kept.old.items) kind result }
    ensures tell { StepsTellLog (with_steps (Some kept.old.items) parts.old.worker) → StepsTellLog (with_steps (Some kept.new.items) parts.new.worker) }
    ensures post { let o = outline_of (table_of Q.facts J.job) J.job in
        StepsAtPost P.workers P.depth P.serves P.denotes P.waits P.had_room P.was_full P.was_empty o kind
        (with_steps (Some kept.old.items) parts.old.worker) (with_steps (Some kept.new.items) parts.new.worker) post.old post.new result }
    ensures hub { StepsAtHub H.serves H.posted H.version H.after H.kept H.shows H.goes_on H.was_stopped H.was_busy kind
        (with_steps (Some kept.old.items) parts.old.worker) (with_steps (Some kept.new.items) parts.new.worker) hub.old hub.new result }
    ensures sink { StepsAtSink (table_of Q.facts J.job) J.job S.written S.frame S.faults kind
        (with_steps (Some kept.old.items) parts.old.worker) sink.old sink.new result }
{
    parts.log_is_known();
    kept.reserve(1)?;
    let answer = step_alone(parts, kind, post, hub, sink);
    keep(kept, kind, &answer);
    answer
}

// A step of a kind that the job has, of which nothing is kept. An exchange takes no memory.
#[inline(always)]
fn step_alone<Q: Query, J: Naming, P: Post<Msg<Q, J>>, H: Hub<OutlineOf<Q, J>>, S: Sink>(
    parts: &mut Parts<'_, Q, J>,
    kind: Kind,
    post: &mut P,
    hub: &mut H,
    sink: &mut S,
) -> Result<Turn, Stop>
    requires fits { KindFits (outline_of (table_of Q.facts J.job) J.job) kind }
    requires at_post { let o = outline_of (table_of Q.facts J.job) J.job in
        IsAtPost P.workers P.depth P.serves P.denotes o parts.old.worker.number parts.old.worker.log post.old }
    requires at_hub { IsAtHub H.serves H.posted H.version parts.old.worker hub.old }
    ensures post { let o = outline_of (table_of Q.facts J.job) J.job in
        StepsAtPost P.workers P.depth P.serves P.denotes P.waits P.had_room P.was_full P.was_empty o kind parts.old.worker parts.new.worker post.old post.new result }
    ensures hub { StepsAtHub H.serves H.posted H.version H.after H.kept H.shows H.goes_on H.was_stopped H.was_busy kind parts.old.worker parts.new.worker hub.old hub.new result }
    ensures sink { StepsAtSink (table_of Q.facts J.job) J.job S.written S.frame S.faults kind parts.old.worker sink.old sink.new result }
    ensures memory { kind ≡ Exchange → result ≢ Err Memory }
{
    match kind {
        Kind::Exchange => exchange(parts, hub),
        Kind::Write => Ok(turn_of(write(parts, sink)?)),
        _ => Ok(turn_of(step_by_mail(parts, kind, post)?)),
    }
}

// A step of a kind that the job has and that neither writes nor exchanges.
#[inline(always)]
fn step_by_mail<Q: Query, J: Naming, P: Post<Msg<Q, J>>>(
    parts: &mut Parts<'_, Q, J>,
    kind: Kind,
    post: &mut P,
) -> Result<Option<Names>, AllocError>
    requires kind { (kind ≢ Write) × (kind ≢ Exchange) }
    requires fits { KindFits (outline_of (table_of Q.facts J.job) J.job) kind }
    requires at_post { let o = outline_of (table_of Q.facts J.job) J.job in
        IsAtPost P.workers P.depth P.serves P.denotes o parts.old.worker.number parts.old.worker.log post.old }
    ensures steps { let o = outline_of (table_of Q.facts J.job) J.job in
        StepsByMail (P.had_room post.old) (P.was_full post.old) (P.was_empty post.old) o kind parts.old.worker parts.new.worker result }
    ensures mail { let o = outline_of (table_of Q.facts J.job) J.job in
        PostFollows P.workers P.depth P.serves P.denotes P.waits o parts.old.worker.number parts.old.worker.log parts.new.worker.log post.old post.new }
{
    match kind {
        Kind::Ingest => ingest(parts),
        Kind::SendControl => send_control(parts, post),
        Kind::Route(stage) => route(parts, stage, post),
        Kind::Receive(from) => receive(parts, from, post),
        Kind::Extract(stage) => extract(parts, stage, post),
        Kind::Settle(stage) => settle(parts, stage),
        Kind::Apply(stage) => apply(parts, stage),
        Kind::SendRow => send_row(parts, post),
        Kind::Write | Kind::Exchange => unreachable!(),
    }
}

// Whether a job of this shape has the stage or the sender that the kind names.
#[inline(always)]
fn fits(kind: Kind, shape: Shape) -> bool
    ensures { (o : Outline) → o.stages ≡ shape.stages → o.workers ≡ shape.workers → IsTrue result ↔ KindFits o kind }
{
    match kind {
        Kind::Route(stage) | Kind::Extract(stage) | Kind::Settle(stage) | Kind::Apply(stage) => {
            stage < shape.stages
        }
        Kind::Receive(from) => from < shape.workers,
        _ => true,
    }
}
