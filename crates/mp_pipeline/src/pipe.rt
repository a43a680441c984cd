//! A pipeline.
ghost use Rattle.std.specs.Prelude.{◌≡◌, ◌≤◌, IfSome, slice_get, true};
ghost use Rattle.mp_pipeline.specs.Pipes.{are_sound, pipe_table};
ghost use Rattle.mp_pipeline.specs.Stages.{IsWidth};

use crate::{EventKind, StageLine};
use mp_model::{Group, PostList, Query, Rec, RuleList, Time, Value};
use std::alloc::{AllocError, Global};
use std::marker::Model;

/// A pipeline: the kind of the events that go in, and the line of each of its stages. Contracts see both.
#[derive(Drop)]
pub struct Pipe {
    kind: EventKind,
    lines: Vec<StageLine>,
}

/// What a stage keeps of a key: a count, a sum or nothing.
pub type PipeCell = Option<u64>;

impl Model for Pipe {
    ghost use Rattle.std.specs.Prelude.{◌≡◌, true};
    ghost use Rattle.mp_pipeline.specs.Pipes.{PipeFacts, are_sound};

    ghost Value = { PipeFacts };

    ghost view = { λ p. record { kind = p.kind; lines = p.lines.items } };

    ghost invariant = { λ p. are_sound p.lines.items ≡ true };
}

impl Pipe {
    /// The pipeline of these lines, one for each stage. There are one to four, a width is 1 to 43,200, and
    /// windows are in the first stage alone.
    pub fn new(kind: EventKind, lines: Vec<StageLine>) -> Pipe
        requires { are_sound lines.items ≡ true }
        ensures { result ≡ record { kind = kind; lines = lines.items } }
    {
        Pipe { kind, lines }
    }

    // The line of a stage, if there is one.
    fn line(&self, stage: u32) -> Option<StageLine>
        ensures line { result ≡ slice_get self.now.lines stage }
        ensures width { IfSome result (λ line. IsWidth line.width) }
        ensures sound { are_sound self.now.lines ≡ true }
    {
        self.lines.get(stage as usize).copied()
    }

    // The cell of a key of a stage that has had no group.
    fn fresh_cell(&self, stage: u32) -> PipeCell
        ensures cell { result ≡ (pipe_table self.now).fresh stage }
        ensures sound { are_sound self.now.lines ≡ true }
    {
        match self.line(stage) {
            Some(line) => line.fresh(),
            None => None,
        }
    }
}

impl Query for Pipe {
    ghost use Rattle.std.specs.Prelude.{[]};
    ghost use Rattle.mp_pipeline.specs.Pipes.{numbers_of, pipe_facts};
    ghost use Rattle.mp_pipeline.specs.Laws.{has_stages, posts_are_later, later_stages_post_nothing, most_is_enough, fresh_stays_fresh, begins_fresh, texts_tell_cells, sums_fit};

    type Cell = PipeCell;

    ghost values = { λ p. numbers_of p };

    ghost rules = { λ _. [] };

    ghost facts = { λ vs. pipe_facts vs };

    ghost text_of = { λ j cell. [] };

    fn stages(&self) -> u32 {
        self.lines.len() as u32
    }

    fn rules(&self) -> RuleList {
        RuleList::new()
    }

    fn with(self, _given: &[u64]) -> Pipe {
        self
    }

    fn key(&self, stage: u32, time: Time, value: &Value) -> Option<u64> {
        if stage == 0 && !self.kind.has(value) {
            return None;
        }
        match self.line(stage) {
            Some(line) => line.key_of(time, value),
            None => None,
        }
    }

    fn posts(&self, stage: u32, rec: &Rec) -> PostList {
        match self.line(stage) {
            Some(line) if stage == 0 => line.posts(rec),
            _ => PostList::new(),
        }
    }

    fn fresh(&self, _alloc: Global, stage: u32) -> PipeCell {
        self.fresh_cell(stage)
    }

    fn is_fresh(&self, stage: u32, cell: &PipeCell) -> bool {
        *cell == self.fresh_cell(stage)
    }

    fn most(&self, stage: u32, _cell: &PipeCell, group: &Group) -> u64 {
        match self.line(stage) {
            Some(line) => line.most(group),
            None => 0,
        }
    }

    fn step(
        &self,
        alloc: Global,
        stage: u32,
        cell: &mut PipeCell,
        group: &Group,
    ) -> Result<Vec<Value>, AllocError> {
        let Some(line) = self.line(stage) else {
            return Ok(Vec::new(alloc));
        };
        let after = line.after(*cell, group);
        let outputs = line.outputs(alloc, *cell, after, group)?;
        *cell = after;
        Ok(outputs)
    }

    fn copy_cell(
        &self,
        _alloc: Global,
        _stage: u32,
        cell: &PipeCell,
    ) -> Result<PipeCell, AllocError> {
        Ok(*cell)
    }

    ghost has_stages = { λ vs. has_stages vs };

    ghost posts_are_later = { λ vs. posts_are_later vs };

    ghost later_stages_post_nothing = { λ vs. later_stages_post_nothing vs };

    ghost most_is_enough = { λ vs. most_is_enough vs };

    ghost fresh_stays_fresh = { λ vs. fresh_stays_fresh vs };

    ghost begins_fresh = { λ vs. begins_fresh vs };

    ghost texts_tell_cells = { λ vs. texts_tell_cells vs };

    ghost sums_fit = { sums_fit };
}
