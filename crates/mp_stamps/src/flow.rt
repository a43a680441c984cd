//! Frontiers along the dataflow: each from those of what comes right before.
ghost use Rattle.std.specs.Prelude.{◌≡◌};
ghost use Rattle.mp_names.specs.Frontiers.{IsFrontierOf};
ghost use Rattle.mp_names.specs.declared.locations.Loc.{Loc};
ghost use Rattle.mp_stamps.specs.Counts.{count_in};
ghost use Rattle.mp_stamps.specs.Flow.{earlier_of, origin_of};

use crate::counts::Counts;
use mp_names::{Frontier, Loc};

/// The frontiers of the locations of a stage.
#[derive(Clone, Copy)]
pub(crate) struct StageFrontiers {
    pub(crate) route: Frontier,
    pub(crate) mail: Frontier,
    pub(crate) moves: Frontier,
    pub(crate) state: Frontier,
    pub(crate) host: Frontier,
}

/// The frontiers of the locations of a stage, from those of the control records on their way and of where the stage's
/// records come from.
pub(crate) fn of_stage(
    counts: &Counts,
    stage: u32,
    ctl_mail: Frontier,
    origin: Frontier,
) -> StageFrontiers
    requires ctl_mail { IsFrontierOf (count_in counts.now) Loc.CtlMail ctl_mail }
    requires origin { IsFrontierOf (count_in counts.now) (origin_of stage) origin }
    ensures route { IsFrontierOf (count_in counts.now) (Loc.Route stage) result.route }
    ensures mail { IsFrontierOf (count_in counts.now) (Loc.Mail stage) result.mail }
    ensures moves { IsFrontierOf (count_in counts.now) (Loc.Move stage) result.moves }
    ensures state { IsFrontierOf (count_in counts.now) (Loc.State stage) result.state }
    ensures host { IsFrontierOf (count_in counts.now) (Loc.Host stage) result.host }
{
    let own_route = counts.first_time(Loc::Route(stage));
    let own_mail = counts.first_time(Loc::Mail(stage));
    let own_move = counts.first_time(Loc::Move(stage));
    let own_state = counts.first_time(Loc::State(stage));
    let own_host = counts.first_time(Loc::Host(stage));
    let route = earlier(origin, own_route);
    let mail = earlier(route, own_mail);
    let moves = earlier(ctl_mail, own_move);
    let state = earlier(moves, own_state);
    let inputs = earlier(mail, state);
    let host = earlier(inputs, own_host);
    StageFrontiers {
        route,
        mail,
        moves,
        state,
        host,
    }
}

/// The earlier of two frontiers.
pub(crate) fn earlier(a: Frontier, b: Frontier) -> Frontier
    ensures { result ≡ earlier_of a b }
{
    match (a, b) {
        (Frontier::At(t), Frontier::At(u)) => Frontier::At(t.min(u)),
        (Frontier::At(_), Frontier::Done) => a,
        (Frontier::Done, _) => b,
    }
}
