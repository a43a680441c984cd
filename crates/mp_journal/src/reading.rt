//! The steps of a whole journal.
ghost use Rattle.std.specs.Prelude.{◌≡◌, ◌<◌, [], Ok, Err, IfErr, IfOk, OnOk, length, map, replicate};
ghost use Rattle.mp_journal.specs.Journals.{journal_of, nothing_said, with_step};
ghost use Rattle.mp_lines.specs.Refusals.{IfBadLine};

use crate::line::{JournalLine, read_line};
use crate::{JournalReason, JournalRefused};
use mp_lines::{LineReader, LineRefused, read_lines};
use mp_names::{Kept, Shape};
use mp_text::FieldList;
use std::alloc::{AllocError, Global};
use std::marker::Model;

/// The steps that a journal of a job of this shape says, by worker and in their order.
///
/// `BadLine` comes exactly where a line fails a check, with the number of the first such line and the first check that
/// it fails. `NoMemory` is an allocation failure alone.
pub fn read_journal(
    alloc: Global,
    text: &[u8],
    shape: &Shape,
) -> Result<Vec<Vec<Kept>>, JournalRefused>
    ensures steps { IfOk result (λ lists. journal_of text.now shape.now ≡ Ok (map (λ v. v.items) lists.items)) }
    ensures workers { IfOk result (λ lists. length lists.items ≡ shape.now.workers) }

    ensures bad_line { IfErr result (λ refused.
        IfBadLine refused (λ line why. journal_of text.now shape.now ≡ Err (line, why))) }
{
    let start = StepLists::new(alloc, *shape)?;
    let said = read_lines(alloc, &JournalReader, start, text)?;
    Ok(said.into_lists())
}

/// The steps of the lines that were read, by worker, in a job of a shape; and the worker of the last line, 0 before the first.
/// Contracts see a `Said`.
#[derive(Drop)]
struct StepLists {
    shape: Shape,
    last: u64,
    lists: Vec<Vec<Kept>>,
}

impl Model for StepLists {
    ghost use Rattle.std.specs.Prelude.{◌≡◌, length, map};
    ghost use Rattle.mp_journal.specs.Journals.{Said};

    ghost Value = { Said };

    ghost view = { λ l. record { shape = l.shape; last = l.last; lists = map (λ v. v.items) l.lists.items } };

    ghost invariant = { λ l. length l.lists.items ≡ l.shape.workers };
}

impl StepLists {
    // None, in a job of this shape. `AllocError`: no memory.
    fn new(alloc: Global, shape: Shape) -> Result<StepLists, AllocError>
        ensures { IfOk result (λ lists. lists ≡ nothing_said shape) }
    {
        Ok(StepLists {
            shape,
            last: 0,
            lists: no_steps(alloc, shape.workers)?,
        })
    }

    // How many workers, bins and stages the job has.
    fn shape(&self) -> Shape
        ensures { result ≡ self.now.shape }
    {
        self.shape
    }

    // The worker of the last line.
    fn last(&self) -> u64
        ensures { result ≡ self.now.last }
    {
        self.last
    }

    // Adds the step of a line. `AllocError`: no memory.
    fn push(&mut self, line: JournalLine) -> Result<(), AllocError>
        requires { line.worker < self.old.shape.workers }
        ensures { OnOk result (self.new ≡ with_step self.old line.worker line.step) }
    {
        self.lists[line.worker as usize].push(line.step)?;
        self.last = line.worker;
        Ok(())
    }

    // They, by worker.
    fn into_lists(self) -> Vec<Vec<Kept>>
        ensures lists { map (λ v. v.items) result.items ≡ self.lists }
        ensures workers { length result.items ≡ self.shape.workers }
    {
        self.lists
    }
}

// For each of so many workers a list of no steps. `AllocError`: no memory.
fn no_steps(alloc: Global, workers: u32) -> Result<Vec<Vec<Kept>>, AllocError>
    ensures lists { IfOk result (λ lists. map (λ v. v.items) lists.items ≡ replicate workers []) }
    ensures workers { IfOk result (λ lists. length lists.items ≡ workers) }
{
    let mut lists = Vec::new(alloc);
    for _ in 0..workers {
        lists.push(Vec::new(alloc))?;
    }
    Ok(lists)
}

/// What the lines of a journal say.
#[derive(Drop)]
struct JournalReader;

impl LineReader for JournalReader {
    ghost use Rattle.mp_journal.specs.Journals.{journal_rules};

    type State = StepLists;

    type Reason = JournalReason;

    ghost rules = { λ _. journal_rules };

    fn read(
        &self,
        alloc: Global,
        fields: &FieldList,
        said: &mut StepLists,
    ) -> Result<(), LineRefused<JournalReason>> {
        match read_line(said.shape(), said.last(), fields) {
            Ok(line) => {
                said.push(line)?;
                Ok(())
            }
            Err(why) => Err(LineRefused::Bad(why)),
        }
    }
}
