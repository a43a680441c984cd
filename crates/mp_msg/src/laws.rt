//! What names tell of the messages of every job of a query, each law the contract of a function that does nothing.
ghost use Rattle.std.specs.Prelude.{◌≡◌, List};
ghost use Rattle.mp_names.specs.declared.names.Name.{Name};
ghost use Rattle.mp_names.specs.Names.{In};
ghost use Rattle.mp_names.specs.Outlines.{IsOwed, IsOwedBy, IsOwedTo};
ghost use Rattle.mp_machine.specs.Messages.{IsMessage};
ghost use Rattle.mp_model.specs.Facts.{JobFacts};
ghost use Rattle.mp_model.specs.Tables.{table_of};
ghost use Rattle.mp_outline.specs.JobOutline.{outline_of};
ghost use Rattle.mp_msg.specs.Bundles.{HasOneSender};
ghost use Rattle.mp_msg.specs.Laws.{BodiesAreMessages, BodiesFollowNames, BundlesFollowNames, ControlsAreOwed, OwedRecordsAreThere, PacketsAreOwed, RecordsAreOwed, RecordsFollowNames, RowsAreOwed, RowsFollowNames, StatesFollowNames};

use crate::Msg;
use mp_mailbox::Named;
use mp_model::{Naming, Query};

/// Each control record, record of a stage, state of a bin that moves and answer row has to be sent, so a message goes from
/// the name's sender to its receiver. Where the name of a record has to be sent there is that record.
pub fn messages_are_owed<Q: Query>()
    ensures controls { (job : JobFacts) → ControlsAreOwed (table_of Q.facts job) job }
    ensures records { (job : JobFacts) → RecordsAreOwed (table_of Q.facts job) job }
    ensures packets { (job : JobFacts) → PacketsAreOwed (table_of Q.facts job) job }
    ensures rows { (job : JobFacts) → RowsAreOwed (table_of Q.facts job) job }
    ensures there { (job : JobFacts) → OwedRecordsAreThere (table_of Q.facts job) job }
{}

/// Two messages of a job with the same names hold the same, so one that a full mailbox hands back holds what it held.
pub fn names_tell_contents<Q: Query>()
    ensures records { (job : JobFacts) → RecordsFollowNames (table_of Q.facts job) job }
    ensures bundles { (job : JobFacts) → BundlesFollowNames (table_of Q.facts job) job }
    ensures rows { (job : JobFacts) → RowsFollowNames (table_of Q.facts job) job }
    ensures states { (job : JobFacts) → StatesFollowNames (table_of Q.facts job) job }
    ensures bodies { (job : JobFacts) → BodiesFollowNames (table_of Q.facts job) job }
{}

/// What a message holds is called by the names of one message, which one worker sends, and each of them has to be sent.
pub fn contents_are_messages<Q: Query>()
    ensures { (job : JobFacts) → BodiesAreMessages (table_of Q.facts job) job }
{}

/// A message is called by its names. The worker that it goes from is the one that has to send them, and the worker that it
/// goes to has to take them.
pub fn messages_go_where_they_are_owed<Q: Query, J: Naming>()
    ensures names { (m : List Name) → ⟦<Msg<Q, J> as Named>⟧.names m ≡ m }
    ensures from { let o = outline_of (table_of Q.facts J.job) J.job in
        (m : List Name) (x : Name) → HasOneSender o m → In x m → IsOwed o x → IsOwedBy o (⟦<Msg<Q, J> as Named>⟧.from m) x }
    ensures to { let o = outline_of (table_of Q.facts J.job) J.job in
        (m : List Name) (x : Name) → IsMessage o m → In x m → IsOwed o x → IsOwedTo o (⟦<Msg<Q, J> as Named>⟧.to m) x }
{}
