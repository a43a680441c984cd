//! The laws of outlines hold of the sample query.
use mp_outline::{
    groups_are_on_timelines, groups_hold_names, names_tell_records, outlines_are_sound,
};
use mp_samples::WakingBids;

#[test]
fn laws_hold_of_a_query(_rt: HostRuntime) {
    outlines_are_sound::<WakingBids>();
    names_tell_records::<WakingBids>();
    groups_are_on_timelines::<WakingBids>();
    groups_hold_names::<WakingBids>();
}
