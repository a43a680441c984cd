//! What holds at every moment of every run, each law the contract of a function that does nothing.

ghost use Rattle.mp_machine.specs.Promises.{RunsContinue, LogsAreAlwaysLegal, LogsOnlyGrow, MailComesInOrder, MailIsOfMessages, OneNameTravels, SeenFrontiersNeverGoBack, BoardFrontiersNeverGoBack, BoardFrontiersAreExact, WhatIsSeenIsDone, VersionsTell};

/// A run goes on from where it stood.
pub fn runs_continue()
    ensures { RunsContinue }
{}

/// In every run each log and each posted log is legal, and they only grow.
pub fn logs_are_always_legal()
    ensures legal { LogsAreAlwaysLegal }
    ensures grow { LogsOnlyGrow }
{}

/// In every run what is taken from a mailbox is what was sent, each name once and in order. Names that travel
/// together have one receiver and one time; where there are several, they are records of one stage. Where records
/// travel singly, so does every name.
pub fn mail_comes_in_order()
    ensures order { MailComesInOrder }
    ensures messages { MailIsOfMessages }
    ensures single { OneNameTravels }
{}

/// In every run no frontier goes back, neither one that a worker saw nor one of the board, and what a
/// worker saw to be passed is done.
pub fn frontiers_go_on()
    ensures seen { SeenFrontiersNeverGoBack }
    ensures board { BoardFrontiersNeverGoBack }
    ensures exact { BoardFrontiersAreExact }
    ensures done { WhatIsSeenIsDone }
    ensures versions { VersionsTell }
{}
