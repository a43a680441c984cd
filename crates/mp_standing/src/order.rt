//! The order of records.
ghost use Rattle.std.specs.Prelude.{◌≡◌, ◌∷◌, []};
ghost use Rattle.mp_names.specs.Names.{is_before};
ghost use Rattle.mp_standing.specs.Held.{rank_of_entry};

use mp_chart::Entry;
use mp_names::{Name, Tag};
use mp_ordered::Order;

/// Entries by the rank of their records: by time, stage, tag and key. Other names come before all records.
pub struct ByRank;

impl Order<Entry> for ByRank {
    ghost rank = { rank_of_entry };

    fn is_before(first: &Entry, second: &Entry) -> bool {
        match (first.name, second.name) {
            (
                Name::Rec {
                    stage: i,
                    time: t,
                    key: k,
                    tag: a,
                },
                Name::Rec {
                    stage: j,
                    time: u,
                    key: l,
                    tag: b,
                },
            ) => record_is_before((t, i, a, k), (u, j, b, l)),
            (_, Name::Rec { .. }) => true,
            _ => false,
        }
    }
}

// Whether a record with this time, stage, tag and key comes before one with those.
fn record_is_before(x: (u64, u32, Tag, u64), y: (u64, u32, Tag, u64)) -> bool
    ensures { result ≡ is_before (x.0 ∷ x.1 ∷ x.2.0 ∷ x.2.1 ∷ x.3 ∷ []) (y.0 ∷ y.1 ∷ y.2.0 ∷ y.2.1 ∷ y.3 ∷ []) }
{
    x.0 < y.0
        || x.0 == y.0
            && (x.1 < y.1
                || x.1 == y.1
                    && (x.2.0 < y.2.0
                        || x.2.0 == y.2.0 && (x.2.1 < y.2.1 || x.2.1 == y.2.1 && x.3 < y.3)))
}
