//! The laws of merges and of the search for them, each the contract of a function that does nothing.
ghost use Rattle.mp_journal_laws.specs.MergePromises.{AnyStepServes, FirstStepMayBeTaken, FoundMergesAreLegal, FoundRunsAreLegal, MergesEndAlike, NoRunIsLeft, SearchesGoOn, SomeStepMayBeTaken};

/// Where the steps that are left have a merge, and one of them may be taken, those that are left then have a merge that ends
/// in the same world. So a search that takes any step that may be taken never has to go back.
pub fn any_step_serves()
    ensures { AnyStepServes }
{}

/// Where the steps that are left have a merge, and some are left, one of them may be taken: the first of any merge.
pub fn some_step_may_be_taken()
    ensures first { FirstStepMayBeTaken }
    ensures some { SomeStepMayBeTaken }
{}

/// All merges of a journal end in one world.
pub fn merges_end_alike()
    ensures { MergesEndAlike }
{}

/// A search that took all steps has found a merge, a legal one where all is over then. One that can't go on, with steps left
/// or before all is over, shows that the journal has no legal merge.
pub fn searches_decide()
    ensures found { FoundMergesAreLegal }
    ensures run { FoundRunsAreLegal }
    ensures on { SearchesGoOn }
    ensures none { NoRunIsLeft }
{}
