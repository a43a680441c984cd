//! What a whole file says.
ghost use Rattle.std.specs.Prelude.{◌≡◌, [], Ok, Err, IfErr, IfOk, OnOk, Some, slice_get};
ghost use Rattle.mp_lines.specs.Files.{file_of};
ghost use Rattle.mp_lines.specs.Refusals.{IfBad, IfBadLine};
ghost use Rattle.mp_lines.specs.Rules.{LineRules};

use crate::{FileRefused, LineRefused};
use mp_text::{FieldList, Lines, fields};
use std::alloc::Global;

/// What the lines of a kind of file say.
pub trait LineReader {
    /// What the lines say that were read.
    type State: Drop;

    /// The check that a line fails.
    type Reason: Drop;

    /// The checks that a line fails, and what it adds.
    ghost rules: { Self → LineRules Self.State Self.Reason };

    /// Adds what a line says to what the lines before it say.
    ///
    /// `Bad` comes exactly where the line fails a check, with the first that it fails. `NoMemory` is an allocation failure
    /// alone.
    fn read(
        &self,
        alloc: Global,
        fields: &FieldList,
        state: &mut Self::State,
    ) -> Result<(), LineRefused<Self::Reason>>
        ensures passes { OnOk result ((rules self.now).failures state.old fields.now ≡ []) }
        ensures says { OnOk result (state.new ≡ (rules self.now).after state.old fields.now) }

        ensures bad { IfErr result (λ refused. IfBad refused (λ why.
            slice_get ((rules self.now).failures state.old fields.now) 0 ≡ Some why)) };
}

/// What a file says, line by line, but for those that are blank, beginning with `start`.
///
/// `BadLine` comes exactly where a line fails a check, with the number of the first such line and the first check that
/// it fails. `NoMemory` is an allocation failure alone.
pub fn read_lines<R: LineReader>(
    alloc: Global,
    reader: &R,
    start: R::State,
    text: &[u8],
) -> Result<R::State, FileRefused<R::Reason>>
    ensures said { IfOk result (λ state. file_of (R.rules reader.now) start text.now ≡ Ok state) }

    ensures bad_line { IfErr result (λ refused.
        IfBadLine refused (λ line why. file_of (R.rules reader.now) start text.now ≡ Err (line, why))) }
{
    let mut state = start;
    let mut lines = Lines::over(text);
    while let Some(line) = lines.next() {
        if line.bytes.is_empty() {
            continue;
        }
        if let Err(refused) = reader.read(alloc, &fields(line.bytes), &mut state) {
            return Err(refused.at_line(line.number));
        }
    }
    Ok(state)
}
