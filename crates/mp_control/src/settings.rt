//! What a configuration says.
use crate::ValueList;
use mp_job::Control;
use mp_names::First;

/// What a configuration says.
#[derive(Drop)]
pub struct Settings {
    /// The first owners of bins, in file order. No bin of a stage stands twice.
    pub firsts: Vec<First>,
    /// The value of each rule of the query, in the order of the rules.
    pub values: ValueList,
    /// The control records, in file order.
    pub controls: Vec<Control>,
}
