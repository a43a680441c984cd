//! The controller of worker 0.
ghost use Rattle.std.specs.Prelude.{◌≡◌, ◌≤◌, ◌<◌, ℕ, [], true, false, IfNone, IfOk, IfSome, length};
ghost use Rattle.mp_names.specs.declared.names.Name.{Name};
ghost use Rattle.mp_names.specs.Limits.{most_controls};
ghost use Rattle.mp_controller.specs.Controlling.{GoesNow, IsControlling, IsLeft, IsNew, IsSendingOrder, after_sent};
ghost use Rattle.mp_controller.specs.Cursors.{cursor, place_after};
ghost use Rattle.mp_controller.specs.Telling.{TellsMachine};

use crate::cursor::place_after;
use crate::order::{list_order, paced_order};
use crate::pace::hosts_have_passed;
use mp_job::Job;
use mp_model::Query;
use mp_names::{Control, ControlCursor, Name, Shape, Time};
use mp_stamps::Seen;
use std::alloc::{AllocError, Global};
use std::marker::Model;

// The first control record, as it goes to the first worker.
const FIRST: ControlCursor = ControlCursor {
    index: 0,
    receiver: 0,
};

/// Which control record worker 0 sends next. In list order each goes out once the one before it in the list is sent. Paced,
/// they go out by time, and those of a time once the moves of all earlier times are over, as in Megaphone's fluid
/// migration: then packets of one time alone are on their way. Contracts see a `Controlling`.
#[derive(Drop)]
pub struct Controller<'a> {
    controls: &'a [Control],
    // Their indices, in the order in which they go out.
    order: Vec<u32>,
    // The first of that order that isn't sent.
    next: ControlCursor,
    paced: bool,
    shape: Shape,
    // Paced, the greatest control time below that of the next.
    before: Option<Time>,
}

impl<'a> Model for Controller<'a> {
    ghost use Rattle.mp_controller.specs.Controlling.{Controlling, IsControlling};

    ghost Value = { Controlling };

    ghost view = { λ c. record { controls = c.controls.now; order = c.order.items; next = c.next; paced = c.paced; shape = c.shape } };

    ghost invariant = { λ c.
        IsControlling (record { controls = c.controls.now; order = c.order.items; next = c.next; paced = c.paced; shape = c.shape }) c.before };
}

impl<'a> Controller<'a> {
    /// The controller of a paced run of the job. `AllocError`: no memory.
    pub fn new<Q: Query>(alloc: Global, job: &'a Job<Q>) -> Result<Controller<'a>, AllocError>
        ensures { IfOk result (IsNew true job.now) }
    {
        let shape = job.shape();
        let order = paced_order(alloc, job.controls())?;
        Ok(Controller::over(job.controls(), shape, order, true))
    }

    /// The controller of a run of the job that isn't paced. `AllocError`: no memory.
    pub fn in_list_order<Q: Query>(
        alloc: Global,
        job: &'a Job<Q>,
    ) -> Result<Controller<'a>, AllocError>
        ensures { IfOk result (IsNew false job.now) }
    {
        let shape = job.shape();
        let order = list_order(alloc, job.controls())?;
        Ok(Controller::over(job.controls(), shape, order, false))
    }

    /// A controller without control records, for another worker than 0. It takes no memory.
    pub fn idle<Q: Query>(alloc: Global, job: &'a Job<Q>) -> Controller<'a>
        ensures { result.order ≡ [] }
    {
        Controller::over(&[], job.shape(), Vec::new(alloc), false)
    }

    // A controller that has sent nothing of these control records.
    fn over(controls: &'a [Control], shape: Shape, order: Vec<u32>, paced: bool) -> Controller<'a>
        requires few { length controls.now ≤ most_controls }
        requires workers { 0 < shape.workers }
        requires order { IsSendingOrder paced controls.now order.items }
        ensures { result ≡ record { controls = controls.now; order = order.items; next = cursor 0 0; paced = paced; shape = shape } }
    {
        Controller {
            controls,
            order,
            next: FIRST,
            paced,
            shape,
            before: None,
        }
    }

    /// The control record that goes out now, as worker 0 sends it to its next receiver. `None` exactly where all are sent,
    /// or where the run is paced and the frontier of some stage's host isn't seen to have passed an earlier control time.
    /// It takes no memory.
    pub fn next(&self, seen: &Seen) -> Option<Name>
        ensures some { IfSome result (GoesNow self.now seen.now) }
        ensures none { IfNone result ((x : Name) → ¬ GoesNow self.now seen.now x) }
        ensures machine { TellsMachine self.now seen.now result }
    {
        self.first_to_go(seen)
    }

    // The same, by what the controller itself has.
    fn first_to_go(&self, seen: &Seen) -> Option<Name>
        ensures some { IfSome result (GoesNow self.now seen.now) }
        ensures none { IfNone result ((x : Name) → ¬ GoesNow self.now seen.now x) }
    {
        let index = *self.order.get(self.next.index as usize)?;
        if let Some(time) = self.before
            && !hosts_have_passed(seen, self.shape.stages, time)
        {
            return None;
        }
        Some(Name::Ctrl {
            index,
            to: self.next.receiver,
        })
    }

    /// The next control record is sent to its receiver. It takes no memory.
    pub fn sent(&mut self)
        requires { IsLeft self.old }
        ensures { self.new ≡ after_sent self.old }
    {
        let next = place_after(self.shape.workers, self.next);
        let before = self.before_at(next);
        self.next = next;
        self.before = before;
    }

    // The greatest control time below that of the control record that comes after the next one.
    fn before_at(&self, next: ControlCursor) -> Option<Time>
        requires left { IsLeft self.now }
        requires next { next ≡ place_after self.now.shape.workers self.now.next }
        ensures { IsControlling (record self.now { next = next }) result }
    {
        if !self.paced || next.index == self.next.index {
            return self.before;
        }
        let Some(following) = self.order.get(next.index as usize) else {
            return self.before;
        };
        let last = self.controls[self.order[self.next.index as usize] as usize].time;
        if last < self.controls[*following as usize].time {
            Some(last)
        } else {
            self.before
        }
    }
}
