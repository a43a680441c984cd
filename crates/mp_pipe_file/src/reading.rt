//! The pipeline of a whole file.
ghost use Rattle.std.specs.Prelude.{◌≡◌, ◌+◌, true, Ok, Err, IfOk, IfErr, length};
ghost use Rattle.mp_lines.specs.Refusals.{IfBadLine};
ghost use Rattle.mp_pipeline.specs.Pipes.{are_sound};
ghost use Rattle.mp_pipe_file.specs.Pipes.{pipe_of};
ghost use Rattle.mp_text.specs.Lines.{lines_of};

use crate::said::SaidSoFar;
use crate::{PipeReason, PipeRefused};
use mp_lines::{FileRefused, LineReader, LineRefused, read_lines};
use mp_pipeline::Pipe;
use mp_text::{FieldList, Lines};
use std::alloc::Global;

/// The pipeline that a file says: the kind of the events that go in, and then its stages, each by a line that isn't blank.
///
/// `BadLine` comes exactly where a line fails a check, with the number of the first such line and the first check that
/// it fails; and where none does and there is no stage, with the number behind that of the last line, and `End`. `NoMemory` is
/// an allocation failure alone.
pub fn read_pipe(alloc: Global, text: &[u8]) -> Result<Pipe, PipeRefused>
    ensures pipe { IfOk result (λ pipe. pipe_of text.now ≡ Ok pipe) }
    ensures sound { IfOk result (λ pipe. are_sound pipe.lines ≡ true) }

    ensures bad_line { IfErr result (λ refused.
        IfBadLine refused (λ line why. pipe_of text.now ≡ Err (line, why))) }
{
    let said = read_lines(alloc, &PipeReader, SaidSoFar::new(alloc), text)?;
    match said.into_pipe() {
        Some(pipe) => Ok(pipe),
        None => Err(FileRefused::BadLine {
            line: line_behind(text),
            why: PipeReason::End,
        }),
    }
}

// The number behind that of the last line.
fn line_behind(text: &[u8]) -> u64
    ensures { result ≡ length (lines_of text.now) + 1 }
{
    let mut count: u64 = 0;
    let mut lines = Lines::over(text);
    while let Some(_) = lines.next() {
        count += 1;
    }
    count + 1
}

/// What the lines of a pipeline file say.
struct PipeReader;

impl LineReader for PipeReader {
    ghost use Rattle.mp_pipe_file.specs.Lines.{pipe_rules};

    type State = SaidSoFar;

    type Reason = PipeReason;

    ghost rules = { λ _. pipe_rules };

    fn read(
        &self,
        alloc: Global,
        fields: &FieldList,
        said: &mut SaidSoFar,
    ) -> Result<(), LineRefused<PipeReason>> {
        said.add(alloc, fields)
    }
}
