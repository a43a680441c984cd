//! What holds for a player of the machine, each the contract of a function that does nothing.
ghost use Rattle.mp_player_laws.specs.Counted.{NumbersDecide};
ghost use Rattle.mp_player_laws.specs.Changing.{StepsChangeLogs};
ghost use Rattle.mp_player_laws.specs.Exchanging.{ExchangesMoveWork, ExchangesSeeWork, StartSeesWork};
ghost use Rattle.mp_player_laws.specs.Held.{HeldChanges};
ghost use Rattle.mp_player_laws.specs.Made.{ConditionsLead, ConditionsMakeSteps};
ghost use Rattle.mp_player_laws.specs.Numbers.{NumbersTellLists};
ghost use Rattle.mp_player_laws.specs.Rising.{NumbersRise};

/// In every run the numbers of what a worker has done tell its lists, each a beginning of a fixed one; and by the numbers, the
/// frontiers that it saw and the room in mailboxes its steps are decided: it makes the one at the place that it has come to, and the
/// number rises by one.
pub fn numbers_decide()
    ensures told { NumbersTellLists }
    ensures decided { NumbersDecide }
    ensures rise { NumbersRise }
{}

/// In every run a record that a worker holds to route came with the step that ingested it, or that applied the group that made it,
/// and goes with the step that routes it: no other step changes what is held.
pub fn held_changes()
    ensures { HeldChanges }
{}

/// In every run an exchange brings to the board what its worker has done since it last posted, as less work that is left; and what it
/// sees are the frontiers of the work that is left then. So a board needs to keep no logs.
pub fn exchanges_show_work()
    ensures start { StartSeesWork }
    ensures moved { ExchangesMoveWork }
    ensures seen { ExchangesSeeWork }
{}

/// A step that was kept is made exactly where its condition is true, and leads to the world that its effect says. In a run a step
/// other than an exchange leaves a log that isn't the posted one: so whether an exchange changes that, one bit tells.
pub fn conditions_make_steps()
    ensures made { ConditionsMakeSteps }
    ensures lead { ConditionsLead }
    ensures changed { StepsChangeLogs }
{}
