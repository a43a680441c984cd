//! How worker 0 writes the answer.
ghost use Rattle.mp_names.specs.declared.kinds.Kind.TheVariants.{Write};
ghost use Rattle.mp_outside.specs.Sink.{OnlyAppends};
ghost use Rattle.mp_outline.specs.JobOutline.{outline_of};
ghost use Rattle.mp_worker_refinement.specs.Steps.{StepsAlone};
ghost use Rattle.mp_worker_steps.specs.Writing.{Writes};
ghost use Rattle.mp_model.specs.Tables.{table_of};

use mp_model::{Naming, Query};
use mp_msg::Names;
use mp_names::Name;
use mp_output::{OutRefused, Wrote};
use mp_outside::Sink;
use mp_rows::LogList;
use mp_worker_parts::Parts;

/// Worker 0 writes the answer's lines of the least time of which it took rows, once no more rows of that time can
/// come: its name, or `None` exactly where there is no such time, or this is another worker. `WriteFault`: only where
/// the sink's count of faults rose in this call or stands at its last value, 2^64 - 1. `NoMemory`: an allocation failed.
/// With either the worker is as it was, and a part of the lines from their front may be written.
pub fn write<'a, Q: Query, J: Naming, S: Sink>(
    parts: &mut Parts<'a, Q, J>,
    sink: &mut S,
) -> Result<Option<Names>, OutRefused>
    ensures steps { let o = outline_of (table_of Q.facts J.job) J.job in
        StepsAlone o Write parts.old.worker parts.new.worker result }
    ensures writes { Writes (table_of Q.facts J.job) J.job S.written S.faults parts.old.worker sink.old sink.new result }
    ensures appends_only { OnlyAppends S.frame S.faults sink.old sink.new }
{
    if parts.log.worker() != 0 {
        return Ok(None);
    }
    parts.log.make_room(1)?;
    match parts.rows.write_due(&parts.seen, sink)? {
        Wrote::Time(time) => {
            let name = Name::Written { time };
            parts.log.push(LogList::Settled, name, &[])?;
            Ok(Some(Names {
                first: name,
                count: 1,
            }))
        }
        Wrote::Nothing => Ok(None),
    }
}
