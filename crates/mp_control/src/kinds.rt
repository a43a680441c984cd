//! The kinds of lines.
ghost use Rattle.std.specs.Prelude.{◌≡◌, ◌≤◌, ◌++◌, ◌+◌, ◌==◌, drop, length, map, take};
ghost use Rattle.mp_control.specs.Controls.{numbers_in};
ghost use Rattle.mp_control.specs.Kinds.{FitsWords, failures_within, kind_of, limits_of};
ghost use Rattle.mp_control.specs.Reasons.{reason_of};
ghost use Rattle.mp_lines.specs.Checks.{AnswersChecks, check, failures_of_fields, field_at};
ghost use Rattle.mp_lines.specs.Limits.{failures_of_number};

use crate::ControlReason;
use mp_job::Shape;
use mp_lines::{MOST_FIELDS, NumberLimit, read_numbers};
use mp_names::limits::MAX_TIME;
use mp_text::FieldList;

/// What a line says.
#[derive(Clone, Copy)]
pub enum LineKind {
    /// `M`, one control record: time, stage, bin, worker.
    Record,
    /// `all`, a plan for all bins of a stage at one time: time, stage, shift.
    AllAtOnce,
    /// `fluid`, a plan for one bin after the other: time, gap, stage, shift.
    Fluid,
    /// `batch`, a plan for one batch of bins after the other: time, gap, size, stage, shift.
    Batched,
}

/// The limit of a time.
pub const TIME: NumberLimit = NumberLimit::UpTo(MAX_TIME);

const SHIFT: NumberLimit = NumberLimit::UpTo(255);

const SIZE: NumberLimit = NumberLimit::Between(1, 4096);

impl LineKind {
    /// The kind that a line says in its first field, if it says one.
    pub fn of(fields: &FieldList) -> Option<LineKind>
        ensures { result ≡ kind_of (field_at fields.now 0) }
    {
        let first = fields.get(0)?;
        if first == b"M".as_slice() {
            Some(LineKind::Record)
        } else if first == b"all".as_slice() {
            Some(LineKind::AllAtOnce)
        } else if first == b"fluid".as_slice() {
            Some(LineKind::Fluid)
        } else if first == b"batch".as_slice() {
            Some(LineKind::Batched)
        } else {
            None
        }
    }

    /// The numbers of the fields after the kind, from left to right. `Fields`: there are more or fewer than the kind has;
    /// `Number`, `Range`: the first field that is no number within its limit.
    pub fn numbers(
        self,
        shape: Shape,
        fields: &FieldList,
    ) -> Result<[u64; MOST_FIELDS], ControlReason>
        ensures read { AnswersChecks result (failures_within (limits_of shape self) fields.now)
            (λ numbers. take (length (limits_of shape self)) numbers ≡ numbers_in fields.now) }
        ensures words { FitsWords shape }
    {
        let stage = NumberLimit::Below(u64::from(shape.stages));
        let bin = NumberLimit::Below(u64::from(shape.bins));
        let worker = NumberLimit::Below(u64::from(shape.workers));
        match self {
            LineKind::Record => numbers_within(fields, &[TIME, stage, bin, worker]),
            LineKind::AllAtOnce => numbers_within(fields, &[TIME, stage, SHIFT]),
            LineKind::Fluid => numbers_within(fields, &[TIME, TIME, stage, SHIFT]),
            LineKind::Batched => numbers_within(fields, &[TIME, TIME, SIZE, stage, SHIFT]),
        }
    }
}

/// The numbers of the fields after the kind, where there is one for each limit and it is within that. `Fields`: there are more or
/// fewer; `Number`, `Range`: the first field that is no number within its limit.
pub fn numbers_within(
    fields: &FieldList,
    limits: &[NumberLimit],
) -> Result<[u64; MOST_FIELDS], ControlReason>
    requires { length limits.now ≤ 6 }
    ensures { AnswersChecks result (failures_within limits.now fields.now)
        (λ numbers. take (length limits.now) numbers ≡ numbers_in fields.now) }
{
    if fields.count() != limits.len() + 1 {
        return Err(ControlReason::Fields);
    }
    Ok(read_numbers(fields, limits)?)
}
