//! One line of a configuration.
ghost use Rattle.std.specs.Prelude.{◌≡◌, ◌+◌, ◌<◌, ◌≤◌, ◌++◌, ◌^◌, ◌∷◌, [], IfErr, OnErr, OnOk, length};
ghost use Rattle.mp_names.specs.Limits.{most_controls};
ghost use Rattle.mp_control.specs.Controls.{failures_but_count};
ghost use Rattle.mp_control.specs.Kinds.{kind_of, last_time_of, line_of, records_on_line};
ghost use Rattle.mp_control.specs.Read.{HasSize, IsCount, IsReadLine, IsSmall, LineFits, refusal_of};
ghost use Rattle.mp_lines.specs.Checks.{AnswersChecks, field_at};
ghost use Rattle.mp_lines.specs.Refusals.{IfBad};

use crate::ControlReason;
use crate::kinds::LineKind;
use mp_job::{Control, Shape};
use mp_lines::{LineRefused, MOST_FIELDS};
use mp_names::Time;
use mp_names::limits::{MAX_CONTROLS, MAX_TIME};
use mp_plans::{PlanRefused, all_at_once, batched, fluid};
use mp_text::FieldList;

/// What a line says, by its numbers. A plan's bins go to workers by a shift.
#[derive(Clone, Copy)]
pub enum ControlLine {
    /// One control record.
    Record(Control),
    /// A record for each bin of a stage, all at one time.
    AllAtOnce {
        time: Time,
        stage: u32,
        shift: u32,
    },
    /// A record for each bin of a stage, each a gap later than the one before it.
    Fluid {
        time: Time,
        gap: Time,
        stage: u32,
        shift: u32,
    },
    /// A record for each bin of a stage, so many at one time, and each batch a gap later than the one before it.
    Batched {
        time: Time,
        gap: Time,
        size: u32,
        stage: u32,
        shift: u32,
    },
}

/// Reads a line's fields. `ControlReason`: the first check that it fails, but for that of how many control records there are.
pub fn read_line(shape: Shape, fields: &FieldList) -> Result<ControlLine, ControlReason>
    requires { 0 < shape.bins }
    ensures { AnswersChecks result (failures_but_count shape (kind_of (field_at fields.now 0)) fields.now)
        (λ line. IsReadLine shape fields.now line) }
{
    let kind = LineKind::of(fields).ok_or(ControlReason::Kind)?;
    let numbers = kind.numbers(shape, fields)?;
    let line = line_of(kind, numbers);
    if line.last_time(shape.bins) > u128::from(MAX_TIME) {
        return Err(ControlReason::Range);
    }
    Ok(line)
}

// The line of a kind that has these numbers. All but its times fit 32 bits.
fn line_of(kind: LineKind, numbers: [u64; MOST_FIELDS]) -> ControlLine
    requires { IsSmall kind numbers }
    ensures { result ≡ line_of kind numbers }
{
    match kind {
        LineKind::Record => ControlLine::Record(Control {
            time: numbers[0],
            stage: numbers[1] as u32,
            bin: numbers[2] as u32,
            worker: numbers[3] as u32,
        }),
        LineKind::AllAtOnce => ControlLine::AllAtOnce {
            time: numbers[0],
            stage: numbers[1] as u32,
            shift: numbers[2] as u32,
        },
        LineKind::Fluid => ControlLine::Fluid {
            time: numbers[0],
            gap: numbers[1],
            stage: numbers[2] as u32,
            shift: numbers[3] as u32,
        },
        LineKind::Batched => ControlLine::Batched {
            time: numbers[0],
            gap: numbers[1],
            size: numbers[2] as u32,
            stage: numbers[3] as u32,
            shift: numbers[4] as u32,
        },
    }
}

impl ControlLine {
    // The time of the last record that the line says, where a stage has so many bins.
    fn last_time(self, bins: u32) -> u128
        requires { HasSize self }
        ensures { result ≡ last_time_of bins self }
    {
        let last = bins.saturating_sub(1);
        match self {
            ControlLine::Record(control) => u128::from(control.time),
            ControlLine::AllAtOnce { time, .. } => u128::from(time),
            ControlLine::Fluid { time, gap, .. } => {
                u128::from(time) + u128::from(last) * u128::from(gap)
            }
            ControlLine::Batched {
                time,
                gap,
                size,
                ..
            } => u128::from(time) + u128::from(last / size) * u128::from(gap),
        }
    }

    /// Appends the records that the line says. `Count`: exactly where there would be more than a job may have; `NoMemory`: an
    /// allocation failure. On both the list is as it was.
    pub fn append(
        self,
        shape: Shape,
        list: &mut Vec<Control>,
    ) -> Result<(), LineRefused<ControlReason>>
        requires workers { 0 < shape.workers }
        requires fits { LineFits shape self }
        ensures few { OnOk result (length list.new.items ≤ most_controls) }
        ensures said { OnOk result (list.new.items ≡ list.old.items ++ records_on_line shape self) }
        ensures bad { IfErr result (λ refused. IfBad refused
            (IsCount (length (list.old.items ++ records_on_line shape self)))) }
        ensures unchanged { OnErr result (list.new.items ≡ list.old.items) }
    {
        match self {
            ControlLine::Record(control) => append_one(control, list),
            ControlLine::AllAtOnce { time, stage, shift } => {
                all_at_once(list, shape, time, stage, shift).map_err(refusal_of)
            }
            ControlLine::Fluid {
                time,
                gap,
                stage,
                shift,
            } => fluid(list, shape, time, gap, stage, shift).map_err(refusal_of),
            ControlLine::Batched {
                time,
                gap,
                size,
                stage,
                shift,
            } => batched(list, shape, time, gap, size, stage, shift).map_err(refusal_of),
        }
    }
}

// Appends one record, if a job may have one more.
fn append_one(control: Control, list: &mut Vec<Control>) -> Result<(), LineRefused<ControlReason>>
    ensures few { OnOk result (length list.new.items ≤ most_controls) }
    ensures said { OnOk result (list.new.items ≡ list.old.items ++ control ∷ []) }
    ensures bad { IfErr result (λ refused. IfBad refused (IsCount (length (list.old.items ++ control ∷ [])))) }
    ensures unchanged { OnErr result (list.new.items ≡ list.old.items) }
{
    if list.len() >= MAX_CONTROLS {
        return Err(LineRefused::Bad(ControlReason::Count));
    }
    list.push(control)?;
    Ok(())
}

/// Why a line is refused whose plan is.
pub fn refusal_of(refused: PlanRefused) -> LineRefused<ControlReason>
    ensures { result ≡ refusal_of refused }
{
    match refused {
        PlanRefused::TooMany { .. } => LineRefused::Bad(ControlReason::Count),
        PlanRefused::NoMemory => LineRefused::NoMemory,
    }
}
