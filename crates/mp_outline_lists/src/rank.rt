//! The rank of a name, as numbers.
ghost use Rattle.std.specs.Prelude.{◌≡◌};
ghost use Rattle.mp_outline_lists.specs.Ranks.{rank_of};

use mp_names::Name;

/// What decides which of two names comes first, compared from the first number on.
#[derive(Clone, Copy, PartialEq, Eq, PartialOrd, Ord)]
pub(crate) struct Rank(u64, u64, u64, u64, u64, u64);

/// The rank of a name.
pub(crate) fn rank_of(name: Name) -> Rank
    ensures { result ≡ rank_of name }
{
    match name {
        Name::Ctrl { index, to } => Rank(0, u64::from(index), u64::from(to), 0, 0, 0),
        Name::Rec {
            stage,
            time,
            key,
            tag,
        } => Rank(1, time, u64::from(stage), tag.0, tag.1, key),
        Name::Packet { stage, bin, time } => Rank(2, time, u64::from(stage), u64::from(bin), 0, 0),
        Name::Row { time, tag } => Rank(3, time, tag.0, tag.1, 0, 0),
        Name::Group { stage, time, key } => Rank(4, time, u64::from(stage), key, 0, 0),
        Name::Settled { stage, time } => Rank(5, time, u64::from(stage), 0, 0, 0),
        Name::Written { time } => Rank(6, time, 0, 0, 0, 0),
    }
}

/// What stands first in the rank of a name among those of its kind: its time, or the index of a control record.
pub(crate) fn lead_of(name: Name) -> u64
    ensures { result ≡ (rank_of name).1 }
{
    rank_of(name).1
}
