//! Where a worker posts its log: a board, or a way to one.
ghost use Rattle.std.specs.Prelude.{◌≡◌, ◌⊎◌, ◌<◌, ◌≤◌, ℕ, Some, None, slice_set};
ghost use Rattle.mp_names.specs.Frontiers.{log_at};
ghost use Rattle.mp_stamps.specs.declared.seen.Seen.{Seen};
ghost use Rattle.mp_board.specs.declared.causes.Cause.{Cause};
ghost use Rattle.mp_names.specs.Logs.{Log, LogIsLegal};
ghost use Rattle.mp_stamps.specs.Seen.{SeenIsDone};
ghost use Rattle.mp_board.specs.Answers.{IfBusy, IfGot, IfNotPosted, IfStopped, IfTried};
ghost use Rattle.mp_board.specs.Boards.{ShowsFrontiers, exchanged};

use crate::board::Board;
use crate::causes::{Answer, Cause, HubStop};
use mp_rows::{Log, Outlined};
use mp_stamps::Seen;

/// Where workers of a job with this outline post their logs: the board itself, or a way to it that may find it held by
/// another.
pub trait Hub<O: Outlined> {
    /// The worker may post here.
    ghost serves: { Self → ℕ → Type 0 };

    /// What the worker posted last.
    ghost posted: { Self → ℕ → Log };

    /// How often a posted log had changed, as far as this hub knows.
    ghost version: { Self → ℕ };

    /// The second is the first after the worker posted this log.
    ghost after: { Self → ℕ → Log → Self → Type 0 };

    /// The second is as the first was.
    ghost kept: { Self → Self → Type 0 };

    /// What was seen is what the board shows.
    ghost shows: { Self → Seen → Type 0 };

    /// No worker had stopped.
    ghost goes_on: { Self → Type 0 };

    /// A worker had stopped, the first of them by this cause.
    ghost was_stopped: { Self → Cause → Type 0 };

    /// Another worker may have held the board.
    ghost was_busy: { Self → Type 0 };

    /// Posts a worker's log, which has grown from the one that it posted last, and gives what all posted logs show then.
    /// `Busy` where another worker holds the board. `Other` exactly where a worker had stopped before. Only `Got` changes
    /// anything. Takes no memory.
    fn exchange(&mut self, worker: u32, log: &mut Log<O>) -> Result<Answer, HubStop>
        requires serves { serves self.old worker }
        requires worker { worker < O.outline.workers }
        requires own { log.old.worker ≡ worker }
        requires legal { LogIsLegal O.outline worker log.old.log }
        requires posted { posted self.old worker ≡ log.old.posted }

        ensures after { IfGot result (λ _. after self.old worker log.old.log self.new) }
        ensures posted { IfGot result (λ _. posted self.new worker ≡ log.old.log) }
        ensures log { IfGot result (λ _. log.new ≡ record log.old { posted = log.old.log }) }
        ensures shows { IfGot result (λ seen. shows self.new seen) }
        ensures told { IfGot result (λ seen. SeenIsDone O.outline worker log.old.log seen) }
        ensures version { IfGot result (λ seen. seen.version ≡ version self.new) }
        ensures rises { IfGot result (λ _. (posted self.old worker ≡ log.old.log) ⊎ (version self.old < version self.new)) }
        ensures never_falls { version self.old ≤ version self.new }

        ensures busy { IfBusy result (was_busy self.old) }
        ensures stopped { IfStopped result (λ cause. was_stopped self.new cause) }
        ensures tried { IfTried result (goes_on self.old) }

        ensures kept { IfNotPosted result (kept self.old self.new) }
        ensures same_log { IfNotPosted result (log.new ≡ log.old) }
        ensures still_posted { IfNotPosted result (posted self.new worker ≡ posted self.old worker) }
        ensures still_serves { (w : ℕ) → serves self.old w → serves self.new w };
}

/// A board serves every worker, and is never held by another.
impl<O: Outlined> Hub<O> for Board<O> {
    ghost serves = { λ _ w. w < O.outline.workers };

    ghost posted = { λ b w. log_at b.logs w };

    ghost version = { λ b. b.version };

    ghost after = { λ b w log c. c ≡ exchanged b w log };

    ghost kept = { λ b c. c ≡ b };

    ghost shows = { λ b seen. (seen.version ≡ b.version) × ShowsFrontiers O.outline b.logs seen };

    ghost goes_on = { λ b. b.stopped ≡ None };

    ghost was_stopped = { λ b cause. b.stopped ≡ Some cause };

    ghost was_busy = { λ _. ⊥ };

    fn exchange(&mut self, worker: u32, log: &mut Log<O>) -> Result<Answer, HubStop> {
        if let Some(cause) = self.stopped() {
            return Err(HubStop::Other(cause));
        }
        Ok(Answer::Got(self.exchange(worker, log)))
    }
}
