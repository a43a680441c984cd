//! What holds of all notes, each law the contract of a function that does nothing.
ghost use Rattle.mp_bins.specs.Laws.{MovesAreToldByNotes, NoNotesAreOfAll, NotedIndicesAreKept, NotedRecordsAreNotes, OrderDoesNotMatter, OwnersAreToldByNotes};

/// What was noted doesn't depend on the order of the notes.
pub fn order_does_not_matter()
    ensures { OrderDoesNotMatter }
{}

/// Where every record of a list up to a time is noted, the owners up to then are those that the list
/// says; and what a job notes of its list, from nothing on, are notes of that list.
pub fn owners_are_told_by_notes()
    ensures told { OwnersAreToldByNotes }
    ensures at_first { NoNotesAreOfAll }
    ensures one_more { NotedRecordsAreNotes }
    ensures noted { NotedIndicesAreKept }
{}

/// Where every record of a list is noted, the moves are those of the list: each time at which another worker
/// owns a bin of a stage than just before, once, by time, stage and bin.
pub fn moves_are_told_by_notes()
    ensures { MovesAreToldByNotes }
{}
