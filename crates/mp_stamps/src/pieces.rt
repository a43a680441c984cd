//! Which pieces of counts have none but times below one.
ghost use Rattle.std.specs.Prelude.{◌≡◌, ◌≤◌, true};
ghost use Rattle.std.specs.List.Sorted.{IsStrictlyIncreasing};
ghost use Rattle.mp_stamps.specs.Counts.{number_below, pieces_below};

use crate::piece::PIECE;
use mp_names::Time;

/// How many pieces of counts at these times have no time from one on.
pub(crate) fn pieces_below(times: &[Time], time: Time) -> usize
    requires rising { IsStrictlyIncreasing times.now }
    ensures { result ≡ pieces_below times.now time }
{
    let below = number_below(times, time);
    if below == times.len() {
        below / PIECE + 1
    } else {
        below / PIECE
    }
}

// How many of the times are below one.
fn number_below(times: &[Time], time: Time) -> usize
    requires rising { IsStrictlyIncreasing times.now }
    ensures { result ≡ number_below times.now time }
{
    match times.binary_search(&time) {
        Ok(index) => index,
        Err(index) => index,
    }
}

/// Whether it takes one look to see that no more than the first so many pieces have no time from one on.
pub(crate) fn has_no_piece_below(times: &[Time], given: usize, time: Time) -> bool
    ensures { result ≡ true → pieces_below times.now time ≤ given }
{
    let last = PIECE.saturating_mul(given).saturating_add(PIECE - 1);
    match times.get(last) {
        Some(there) => time <= *there,
        None => false,
    }
}
