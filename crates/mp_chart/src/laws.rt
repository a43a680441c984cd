//! That the lists decide the steps, the contract of a function that does nothing.
ghost use Rattle.mp_chart.specs.Lists.{ListsDecide};

/// In every run a worker's step along a list is made with the name at the place that it has come to, where it has seen enough and
/// the mailbox lets it.
pub fn lists_decide()
    ensures { ListsDecide }
{}
