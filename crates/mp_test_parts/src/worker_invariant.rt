//! The laws of a worker's parts hold of the sample query; what a small group gives, and the order of control records.
ghost use Rattle.mp_test_parts.specs.Parts.{ControlsGoInTurn, OneBidGivesARow};

use mp_samples::WakingBids;
use mp_worker_invariant::{
    conditions_are_told, groups_hand_on, outputs_go_in_turn, parts_are_asked, parts_begin,
    parts_hear_their_own, rows_are_sent, shares_are_ingested, steps_keep_parts, steps_stay_legal,
};

#[test]
fn laws_hold_of_a_query(_rt: HostRuntime) {
    parts_begin::<WakingBids>();
    parts_are_asked::<WakingBids>();
    parts_hear_their_own::<WakingBids>();
    shares_are_ingested::<WakingBids>();
    groups_hand_on::<WakingBids>();
    outputs_go_in_turn::<WakingBids>();
    rows_are_sent::<WakingBids>();
    steps_stay_legal::<WakingBids>();
    conditions_are_told::<WakingBids>();
    steps_keep_parts::<WakingBids>();
}

/// What the groups of a bid give, worked out.
fn one_bid_gives_a_row()
    ensures { OneBidGivesARow }
{}

/// The order in which control records are sent to two workers, worked out.
fn controls_go_in_turn()
    ensures { ControlsGoInTurn }
{}

#[test]
fn definitions_are_worked_out(_rt: HostRuntime) {
    one_bid_gives_a_row();
    controls_go_in_turn();
}
