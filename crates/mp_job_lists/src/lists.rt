//! The fields of a job's outline as lists.
ghost use Rattle.std.specs.Prelude.{◌≡◌, ◌↔◌, IfOk, IsSome};
ghost use Rattle.mp_model.specs.Answers.{one_thread_answer};
ghost use Rattle.mp_model.specs.Tables.{table_of};
ghost use Rattle.mp_job.specs.Runs.{IsRunOf};
ghost use Rattle.mp_outline.specs.JobOutline.{outline_of};
ghost use Rattle.mp_job_lists.specs.Listed.{IsWhole};

use crate::answer::is_answer;
use crate::fold::fold;
use crate::names::{packet_names, row_names};
use crate::posts::Posts;
use mp_bins::{Owners, bin_of};
use mp_job::{Job, Shape};
use mp_job_owners::owners_of;
use mp_model::{Naming, Query, tables_keep_laws};
use mp_names::limits::MAX_BUNDLE;
use mp_names::{Control, Name, Time};
use mp_outline::outlines_are_sound;
use mp_outline_lists::OutlineLists;
use std::alloc::{AllocError, Global};
use std::marker::{Model, PhantomData};

/// The fields of the outline of the job J. Contracts see the job.
#[derive(Drop)]
pub struct JobLists<'a, Q: Query, J: Naming> {
    shape: Shape,
    controls: &'a [Control],
    paced: bool,
    // By stage.
    records: Vec<Vec<Name>>,
    // By the place of a record of the first stage.
    posts: Posts,
    rows: Vec<Name>,
    packets: Vec<Name>,
    owners: Owners,
    of: PhantomData<(Q, J)>,
}

impl<'a, Q: Query, J: Naming> Model for JobLists<'a, Q, J> {
    ghost use Rattle.std.specs.Prelude.{map};
    ghost use Rattle.mp_model.specs.Facts.{JobFacts};
    ghost use Rattle.mp_model.specs.Tables.{table_of};
    ghost use Rattle.mp_job_lists.specs.Listed.{IsListed};

    ghost Value = { JobFacts };

    ghost view = { λ l. J.job };

    ghost invariant = { λ l.
        IsListed (table_of Q.facts J.job) J.job l.shape l.controls.now l.paced (map (λ names. names.items) l.records.items) l.posts l.rows.items l.packets.items l.owners };
}

impl<'a, Q: Query, J: Naming> JobLists<'a, Q, J> {
    /// The lists of a job that has no stop time and goes on from no checkpoint, paced or not, if its answer on one thread is this; `None` where it isn't.
    /// `AllocError`: no memory.
    pub fn of(
        alloc: Global,
        job: &'a Job<Q>,
        paced: bool,
        answer: &[u8],
    ) -> Result<Option<JobLists<'a, Q, J>>, AllocError>
        requires job { IsRunOf job.now J.job }
        requires whole { IsWhole job.now }
        requires pace { J.job.paced ≡ paced }
        ensures { IfOk result (λ lists. IsSome lists ↔ (answer.now ≡ one_thread_answer (table_of Q.facts J.job) J.job.events)) }
    {
        tables_keep_laws::<Q>();
        outlines_are_sound::<Q>();
        let shape = job.shape();
        let folded = fold(alloc, job.query(), job.events())?;
        let rows = row_names(alloc, folded.rows.as_slice())?;
        if !is_answer(alloc, folded.rows, answer)? {
            return Ok(None);
        }
        let owners = owners_of(alloc, job)?;
        let packets = packet_names(alloc, owners.moves()?.as_slice())?;
        Ok(Some(JobLists {
            shape,
            controls: job.controls(),
            paced,
            records: folded.records,
            posts: folded.posts,
            rows,
            packets,
            owners,
            of: PhantomData,
        }))
    }
}

impl<'a, Q: Query, J: Naming> OutlineLists for JobLists<'a, Q, J> {
    ghost outline = { λ lists. outline_of (table_of Q.facts J.job) J.job };

    fn workers(&self) -> u32 {
        self.shape.workers
    }

    fn stages(&self) -> u32 {
        self.shape.stages
    }

    fn bins(&self) -> u32 {
        self.shape.bins
    }

    fn bundle(&self) -> u32 {
        MAX_BUNDLE as u32
    }

    fn until(&self) -> Option<Time> {
        let _ = &self.shape;
        None
    }

    fn is_paced(&self) -> bool {
        self.paced
    }

    fn controls(&self) -> &[Control] {
        self.controls
    }

    fn records(&self, stage: u32) -> &[Name] {
        self.records[stage as usize].as_slice()
    }

    fn posts(&self, place: usize) -> &[Time] {
        self.posts.at(place)
    }

    fn opening(&self, _stage: u32) -> &[Name] {
        let _ = &self.shape;
        &[]
    }

    fn rows(&self) -> &[Name] {
        self.rows.as_slice()
    }

    fn packets(&self) -> &[Name] {
        self.packets.as_slice()
    }

    fn owner_before(&self, stage: u32, bin: u32, time: Time) -> u32 {
        self.owners.before(stage, bin, time)
    }

    fn owner_at(&self, stage: u32, bin: u32, time: Time) -> u32 {
        self.owners.owner(stage, bin, time)
    }

    fn bin_of(&self, key: u64) -> u32 {
        bin_of(key, self.shape.bins)
    }

    fn are_sound(&self) {
        let _ = &self.shape;
    }
}
