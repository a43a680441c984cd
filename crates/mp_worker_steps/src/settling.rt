//! How times of control records are settled.
ghost use Rattle.std.specs.Prelude.{◌<◌};
ghost use Rattle.mp_names.specs.declared.kinds.Kind.TheVariants.{Settle};
ghost use Rattle.mp_outline.specs.JobOutline.{outline_of};
ghost use Rattle.mp_worker_refinement.specs.Steps.{StepsAlone};
ghost use Rattle.mp_model.specs.Tables.{table_of};

use mp_model::{Naming, Query};
use mp_msg::Names;
use mp_names::{Loc, Name};
use mp_rows::LogList;
use mp_worker_parts::{Parts, one_less};
use std::alloc::AllocError;

/// The first time of noted control records of a stage that isn't settled is, once the control stream has passed it and
/// all that leaves then is sent: its name, or `None` exactly where no time may be settled. `AllocError`: no memory, and
/// nothing changes.
pub fn settle<'a, Q: Query, J: Naming>(
    parts: &mut Parts<'a, Q, J>,
    stage: u32,
) -> Result<Option<Names>, AllocError>
    requires stage { stage < J.job.shape.stages }
    ensures { let o = outline_of (table_of Q.facts J.job) J.job in
        StepsAlone o (Settle stage) parts.old.worker parts.new.worker result }
{
    parts.log.make_room(1)?;
    let movers = &mut parts.movers[stage as usize];
    let Some(time) = movers.settle(&parts.seen, &parts.owners) else {
        return Ok(None);
    };
    let name = Name::Settled { stage, time };
    parts.log.push(LogList::Settled, name, &[one_less(Loc::Move(stage), time)])?;
    Ok(Some(Names {
        first: name,
        count: 1,
    }))
}
