//! The player as the search plays it.
ghost use Rattle.mp_player.specs.Shows.{Shows};

use mp_audit::{Kept, Play};
use mp_chart::Chart;
use mp_names::Kind;
use mp_player::{State, exchange, go_along, is_finished, is_posted, receive, route};
use std::alloc::AllocError;

/// A player of the machine by counters, over a chart of a job.
#[derive(Drop)]
pub struct Player<C> {
    /// The job.
    pub chart: C,
    /// How many messages a mailbox takes.
    pub depth: u32,
    /// What the player keeps of the world.
    pub state: State,
}

impl<C: Chart> Play for Player<C> {
    ghost outline = { λ p. C.outline p.chart };

    ghost depth = { λ p. p.depth };

    ghost shows = { λ p world. Shows (C.outline p.chart) p.depth p.state world };

    fn make(&mut self, worker: u32, step: Kept) -> Result<bool, AllocError> {
        match step.kind {
            Kind::Route(stage) => { route(&self.chart, self.depth, worker, stage, &mut self.state) }
            Kind::Receive(from) => {
                receive(&self.chart, self.depth, worker, from, &mut self.state)
            }
            Kind::Exchange => Ok(exchange(&self.chart, worker, step.version, &mut self.state)),
            kind => go_along(&self.chart, self.depth, worker, kind, &mut self.state),
        }
    }

    fn is_posted(&self, worker: u32) -> bool {
        is_posted(&self.state, worker)
    }

    fn version(&self) -> u64 {
        self.state.version
    }

    fn is_finished(&self) -> bool {
        is_finished(&self.chart, &self.state)
    }
}
