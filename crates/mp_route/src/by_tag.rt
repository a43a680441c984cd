//! The order in which records go.
use mp_model::Rec;
use mp_ordered::Order;

/// Records by time, and those of one time by tag.
pub struct ByTag;

impl Order<Rec> for ByTag {
    ghost use Rattle.mp_route.specs.Routed.{tag_rank};

    ghost rank = { tag_rank };

    fn is_before(first: &Rec, second: &Rec) -> bool {
        (first.time, first.tag) < (second.time, second.tag)
    }
}
