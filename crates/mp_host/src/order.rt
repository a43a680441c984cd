//! The order of records in a host.
use mp_model::Rec;
use mp_ordered::Order;
use mp_ordered_runs::Kinds;

/// Records by time, then by key, then by tag, so that those of a group stand together, in the order in which the group
/// takes them.
pub struct ByGroup;

impl Order<Rec> for ByGroup {
    ghost use Rattle.mp_host_laws.specs.Hosted.{group_rank};

    ghost rank = { group_rank };

    fn is_before(first: &Rec, second: &Rec) -> bool {
        (first.time, first.key, first.tag) < (second.time, second.key, second.tag)
    }
}

impl Kinds<Rec> for ByGroup {
    ghost use Rattle.mp_host_laws.specs.Hosted.{is_of};

    ghost same = { λ r s. is_of r.time r.key s };

    fn is_same(first: &Rec, second: &Rec) -> bool {
        second.time == first.time && second.key == first.key
    }
}
