//! What a packet that leaves changes.
ghost use Rattle.std.specs.Prelude.{◌≡◌, ◌<◌, ◌^◌, All, IfOk};
ghost use Rattle.mp_rows_laws.specs.Changes.{packet_sent_at};

use mp_model::Time;
use mp_names::Loc;
use mp_rows::{Change, Pointstamp};
use std::alloc::{AllocError, Global};

/// What a packet that is sent changes at the counts: it is on its way, and so many groups of each time wait no longer.
/// `AllocError`: no memory.
pub(crate) fn changes_of_leaving(
    alloc: Global,
    stage: u32,
    time: Time,
    numbers: &[(Time, u64)],
) -> Result<Vec<Change>, AllocError>
    requires few { All (λ n. n.1 < 2 ^ 63) numbers.now }
    ensures { IfOk result (λ changes. changes.items ≡ packet_sent_at stage time numbers.now) }
{
    let mut changes = Vec::new(alloc);
    changes.push(Change {
        at: Pointstamp {
            loc: Loc::State(stage),
            time,
        },
        by: 1,
    })?;
    for (at, number) in numbers {
        changes.push(Change {
            at: Pointstamp {
                loc: Loc::Host(stage),
                time: *at,
            },
            by: -(*number as i64),
        })?;
    }
    Ok(changes)
}
