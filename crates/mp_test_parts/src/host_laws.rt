//! The laws of hosts hold of the sample query; and what waits at a small host.
ghost use Rattle.mp_test_parts.specs.Hosts.{BusyHostWaits};

use mp_host_laws::{
    bins_leave, groups_are_held, hosts_begin_with_the_opening, packets_are_held, records_are_held,
    waiting_groups_are_told,
};
use mp_samples::WakingBids;

#[test]
fn laws_hold_of_a_query(_rt: HostRuntime) {
    hosts_begin_with_the_opening::<WakingBids>();
    records_are_held::<WakingBids>();
    waiting_groups_are_told::<WakingBids>();
    groups_are_held::<WakingBids>();
    bins_leave::<WakingBids>();
    packets_are_held::<WakingBids>();
}

/// Which group is first, which keys wait and what is told of wakes, worked out.
fn busy_host_waits()
    ensures { BusyHostWaits }
{}

#[test]
fn definitions_are_worked_out(_rt: HostRuntime) {
    busy_host_waits();
}
