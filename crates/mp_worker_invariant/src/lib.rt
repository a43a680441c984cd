//! Layer: a worker.
//!
//! Laws alone: what the parts of a worker hold by its log, and what becomes of that at each of its steps.
#![tactic(auto)]

mod laws;

pub use laws::{
    conditions_are_told, groups_hand_on, outputs_go_in_turn, parts_are_asked, parts_begin,
    parts_hear_their_own, rows_are_sent, shares_are_ingested, steps_keep_parts, steps_stay_legal,
};
