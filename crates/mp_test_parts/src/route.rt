//! The laws of routers hold of the sample query.
use mp_route::held_records_are_counted;
use mp_samples::WakingBids;

#[test]
fn laws_hold_of_a_query(_rt: HostRuntime) {
    held_records_are_counted::<WakingBids>();
}
