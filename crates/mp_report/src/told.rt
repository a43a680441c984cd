//! What the workers' tallies tell of moves.
ghost use Rattle.std.specs.Prelude.{◌≡◌, ◌∷◌, [], IfOk};
ghost use Rattle.std.specs.List.Sorted.{IsPermutation};
ghost use Rattle.mp_names.specs.Names.{is_before};
ghost use Rattle.mp_ordered.specs.InOrder.{IsInOrder};
ghost use Rattle.mp_report.specs.Told.{keys_in, packets_of, rank_of_packet};

use mp_names::{Move, Time};
use mp_tally::{Moved, Tally};
use std::alloc::{AllocError, Global};

/// The packets that tallies tell, by time, stage and bin, as moves are listed. `AllocError`: no memory.
pub fn packets_told(alloc: Global, tallies: &[Tally]) -> Result<Vec<Moved>, AllocError>
    ensures all { IfOk result (λ packets. IsPermutation (packets_of tallies.now) packets.items) }
    ensures in_order { IfOk result (λ packets. IsInOrder rank_of_packet packets.items) }
{
    let mut packets = packets_of(alloc, tallies)?;
    packets.sort_unstable_by_key(
        |packet: &Moved| -> (Time, u32, u32)
            ensures { result ≡ (packet.now.time, packet.now.stage, packet.now.bin) }
        { (packet.time, packet.stage, packet.bin) },
    );
    Ok(packets)
}

// The packets of one tally after the other.
fn packets_of(alloc: Global, tallies: &[Tally]) -> Result<Vec<Moved>, AllocError>
    ensures { IfOk result (λ packets. packets.items ≡ packets_of tallies.now) }
{
    let mut packets = Vec::new(alloc);
    for tally in tallies {
        packets.extend_from_slice(&tally.moved)?;
    }
    Ok(packets)
}

/// How many keys the packet of a move had, of packets by time, stage and bin; 0 where there is none. Found by halving.
pub fn keys_in(packets: &[Moved], change: Move) -> u64
    requires { IsInOrder rank_of_packet packets.now }
    ensures { result ≡ keys_in packets.now change }
{
    let at = packets.partition_point(
        |packet: &Moved| -> bool
            ensures { result ≡ is_before (rank_of_packet packet.now) (change.time ∷ change.stage ∷ change.bin ∷ []) }
        { (packet.time, packet.stage, packet.bin) < (change.time, change.stage, change.bin) },
    );
    match packets.get(at) {
        Some(packet) => keys_of(*packet, change),
        None => 0,
    }
}

// How many keys the packet had, if it is that of the move, else 0.
fn keys_of(packet: Moved, change: Move) -> u64
    ensures { result ≡ keys_in (packet ∷ []) change }
{
    if packet.stage == change.stage && packet.bin == change.bin && packet.time == change.time {
        packet.keys
    } else {
        0
    }
}
