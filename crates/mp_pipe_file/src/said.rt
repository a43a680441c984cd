//! What the lines of a pipeline file said so far.
ghost use Rattle.std.specs.Prelude.{◌≡◌, None, IfOk};
ghost use Rattle.mp_lines.specs.Checks.{AnswersChecks};
ghost use Rattle.mp_pipe_file.specs.Lines.{AnswersLine, MayFollow, failures_by, failures_of_on, failures_of_stage, fields_behind, is_in_order, said_by, with_kind, with_stage};
ghost use Rattle.mp_pipe_file.specs.Pipes.{whole};
ghost use Rattle.mp_pipe_file.specs.Stages.{stage_on};
ghost use Rattle.mp_pipe_file.specs.Words.{kind_of};
ghost use Rattle.mp_lines.specs.Checks.{field_at};

use crate::PipeReason;
use crate::kinds::{LineKind, event_kind_of};
use crate::stages::read_stage;
use mp_lines::LineRefused;
use mp_pipeline::{EventKind, Form, Pipe, StageLine};
use mp_text::FieldList;
use std::alloc::{AllocError, Global};
use std::marker::Model;

/// How many stages a pipeline has at most.
const MOST_STAGES: usize = 4;

/// What the lines said so far. Contracts see the pipeline so far, if the kind of its events was said.
#[derive(Drop)]
pub struct SaidSoFar {
    kind: Option<EventKind>,
    lines: Vec<StageLine>,
}

impl Model for SaidSoFar {
    ghost use Rattle.std.specs.Prelude.{◌≡◌, true, Option};
    ghost use Rattle.std.specs.Option.{option_map};
    ghost use Rattle.mp_pipeline.specs.Pipes.{PipeFacts, may_stand};

    ghost Value = { Option PipeFacts };

    ghost view = { λ s. option_map (λ kind. record { kind = kind; lines = s.lines.items }) s.kind };

    ghost invariant = { λ s. may_stand s.lines.items ≡ true };
}

impl SaidSoFar {
    /// Nothing.
    pub fn new(alloc: Global) -> SaidSoFar
        ensures { result ≡ None }
    {
        SaidSoFar {
            kind: None,
            lines: Vec::new(alloc),
        }
    }

    /// Adds what a line says. `Bad`: exactly where the line fails a check, with the first that it fails; `NoMemory`: an
    /// allocation failure.
    pub fn add(&mut self, alloc: Global, fields: &FieldList) -> Result<(), LineRefused<PipeReason>>
        ensures { let kind = kind_of (field_at fields.now 0) in
            AnswersLine result (failures_by self.old kind fields.now) (λ _. self.new ≡ said_by self.old kind fields.now) }
    {
        match LineKind::of(fields) {
            Some(LineKind::On) => self.add_kind(alloc, fields).map_err(LineRefused::Bad),
            Some(LineKind::Stage(form)) => self.add_stage(form, fields),
            None => Err(LineRefused::Bad(PipeReason::Kind)),
        }
    }

    // Adds the kind of events.
    fn add_kind(&mut self, alloc: Global, fields: &FieldList) -> Result<(), PipeReason>
        ensures { AnswersChecks result (failures_of_on self.old fields.now) (λ _. self.new ≡ with_kind fields.now) }
    {
        if fields.count() != 2 {
            return Err(PipeReason::Fields);
        }
        let kind = event_kind_of(fields.get(1).unwrap()).ok_or(PipeReason::Kind)?;
        if self.kind.is_some() {
            return Err(PipeReason::Order);
        }
        *self = SaidSoFar {
            kind: Some(kind),
            lines: Vec::new(alloc),
        };
        Ok(())
    }

    // Adds a stage.
    fn add_stage(&mut self, form: Form, fields: &FieldList) -> Result<(), LineRefused<PipeReason>>
        ensures { AnswersLine result (failures_of_stage self.old form fields.now)
            (λ _. self.new ≡ with_stage self.old (stage_on form fields.now)) }
    {
        let line = match self.stage_on(form, fields) {
            Ok(line) => line,
            Err(why) => return Err(LineRefused::Bad(why)),
        };
        self.lines.push(line)?;
        Ok(())
    }

    // The stage that a line says, if it fails no check.
    fn stage_on(&self, form: Form, fields: &FieldList) -> Result<StageLine, PipeReason>
        ensures { AnswersChecks result (failures_of_stage self.now form fields.now)
            (λ line. (line ≡ stage_on form fields.now) × MayFollow self.now line) }
    {
        let line = read_stage(form, self.record_fields(), fields)?;
        if !self.admits(form) {
            return Err(PipeReason::Order);
        }
        if self.lines.len() >= MOST_STAGES {
            return Err(PipeReason::Count);
        }
        Ok(line)
    }

    // Whether a stage of this form may stand here.
    fn admits(&self, form: Form) -> bool
        ensures { result ≡ is_in_order self.now form }
    {
        self.kind.is_some() && (form != Form::Window || self.lines.is_empty())
    }

    // How many fields the records of the next stage have.
    fn record_fields(&self) -> u64
        ensures { result ≡ fields_behind self.now }
    {
        match self.kind {
            Some(EventKind::Person) if self.lines.is_empty() => 2,
            Some(EventKind::Bid) if self.lines.is_empty() => 4,
            Some(_) if !self.lines.is_empty() => 3,
            _ => 6,
        }
    }

    /// The pipeline, if it has a stage.
    pub fn into_pipe(self) -> Option<Pipe>
        ensures { result ≡ whole self }
    {
        let SaidSoFar { kind, lines } = self;
        match kind {
            Some(kind) if !lines.is_empty() => Some(Pipe::new(kind, lines)),
            _ => None,
        }
    }
}
