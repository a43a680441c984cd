//! What a job is made of.
use mp_model::{Control, Event, First};

/// The lists that a job is made of.
#[derive(Drop)]
pub struct JobInputs {
    /// In the order of the event file.
    pub events: Vec<Event>,
    /// In the order of the control list.
    pub controls: Vec<Control>,
    /// The first owners that aren't the usual ones.
    pub firsts: Vec<First>,
}
