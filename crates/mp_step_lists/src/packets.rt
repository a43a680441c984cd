//! The packets that each worker sends.
ghost use Rattle.std.specs.Prelude.{◌≡◌, ◌==◌, ◌<◌, All, IfOk, IsTrue, filter, map};
ghost use Rattle.mp_names.specs.Names.{is_packet};
ghost use Rattle.mp_step_lists.specs.Tables.{packets_by_stage, packets_by_worker};

use mp_chart::Entry;
use mp_names::Name;
use mp_outline_lists::OutlineLists;
use mp_parted::{By, parted};
use std::alloc::{AllocError, Global};

/// By stage and worker the packets that it sends, by time and bin. `AllocError`: no memory.
pub(crate) fn packets_to_send<L: OutlineLists>(
    alloc: Global,
    lists: &L,
) -> Result<Vec<Vec<Vec<Entry>>>, AllocError>
    ensures { IfOk result (λ packets. map (λ row. map (λ list. list.items) row.items) packets.items ≡ packets_by_stage (L.outline lists.now)) }
{
    let mut packets = Vec::new(alloc);
    for stage in 0..lists.stages() {
        packets.push(packets_at(alloc, lists, stage)?)?;
    }
    Ok(packets)
}

// By worker the packets of a stage that it sends.
fn packets_at<L: OutlineLists>(
    alloc: Global,
    lists: &L,
    stage: u32,
) -> Result<Vec<Vec<Entry>>, AllocError>
    ensures { IfOk result (λ row. map (λ list. list.items) row.items ≡ packets_by_worker (L.outline lists.now) stage) }
{
    lists.are_sound();
    let own = at_stage(alloc, lists.packets(), stage)?;
    parted(alloc, lists, By::Sender, &own)
}

// The packets of a stage.
fn at_stage(alloc: Global, packets: &[Name], stage: u32) -> Result<Vec<Name>, AllocError>
    ensures { IfOk result (λ own. own.items ≡ filter (is_packet stage) packets.now) }
{
    packets
        .iter()
        .copied()
        .filter(
            |name: &Name| -> bool
                ensures { result ≡ is_packet stage name.now }
            { is_packet(*name, stage) },
        )
        .collect(alloc)
}

// Whether a name is that of a packet of the stage.
fn is_packet(name: Name, stage: u32) -> bool
    ensures { result ≡ is_packet stage name }
{
    match name {
        Name::Packet { stage: own, .. } => own == stage,
        _ => false,
    }
}
