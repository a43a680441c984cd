//! Steps along lists.
ghost use Rattle.std.specs.Prelude.{◌≡◌, ◌-◌, ◌<◌, ◌^◌, ◌∷◌, [], OnOk, get_or, slice_set, true};
ghost use Rattle.std.specs.List.{slice_get};
ghost use Rattle.mp_names.specs.declared.kinds.Kind.{Kind};
ghost use Rattle.mp_names.specs.declared.locations.Loc.{Loc};
ghost use Rattle.mp_names.specs.declared.names.Name.{Name};
ghost use Rattle.mp_player_laws.specs.WorkLeft.{mail_of, work_of};
ghost use Rattle.mp_player_laws.specs.Numbers.{StandsAt};
ghost use Rattle.mp_chart.specs.Entries.{entry_of};
ghost use Rattle.mp_chart.specs.Lists.{goes_along, to_do};
ghost use Rattle.mp_standing.specs.Advancing.{Advances};
ghost use Rattle.mp_standing.specs.Numbers.{done_at};
ghost use Rattle.mp_standing.specs.Standings.{HasGiven, IsWorkDone};

use crate::standing::Standing;
use mp_chart::{Chart, Entry, Work};
use mp_names::{Kind, Loc, Name};
use std::alloc::AllocError;

/// Notes that a worker has made the step along a list with this entry, which stands at the place that it had come to.
/// `AllocError`: no memory.
pub fn advance<C: Chart>(
    chart: &C,
    worker: u32,
    kind: Kind,
    entry: Entry,
    standing: &mut Standing,
) -> Result<(), AllocError>
    requires worker { worker < (C.outline chart.now).workers }
    requires along { goes_along kind ≡ true }
    requires number { done_at standing.old.done kind < 2 ^ 64 - 1 }
    ensures { OnOk result ((x : Name) → StandsAt (to_do (C.outline chart.now) worker kind) (done_at standing.old.done kind) x
        → entry ≡ entry_of (C.outline chart.now) x → Advances (C.outline chart.now) worker kind x standing.old standing.new) }
{
    let place = standing.done.count(kind);
    standing.note(kind, work_done(kind, entry, 1))?;
    give(chart, worker, kind, place, entry, standing)?;
    Ok(())
}

// The records that a step gives come to those that the worker holds. `AllocError`: no memory.
fn give<C: Chart>(
    chart: &C,
    worker: u32,
    kind: Kind,
    place: usize,
    entry: Entry,
    standing: &mut Standing,
) -> Result<(), AllocError>
    requires { worker < (C.outline chart.now).workers }
    ensures held { OnOk result (HasGiven (C.outline chart.now) worker kind place entry standing.old.held.items standing.new.held.items) }
    ensures done { OnOk result (standing.new.done ≡ standing.old.done) }
    ensures work { OnOk result (standing.new.since ≡ standing.old.since) }
    ensures changed { OnOk result (standing.new.changed ≡ standing.old.changed) }
    ensures seen { OnOk result (standing.new.seen ≡ standing.old.seen) }
{
    match kind {
        Kind::Ingest => standing.give(0, &[entry])?,
        Kind::Apply(stage) => {
            standing.give(stage as usize + 1, chart.given(worker, stage, place))?
        }
        _ => {}
    }
    Ok(())
}

/// The work that a step does, of so many names of which this is the first.
pub fn work_done(kind: Kind, first: Entry, count: u32) -> Work
    ensures { IsWorkDone kind first.name first.time count result }
{
    let time = first.time;
    match loc_of(kind, first.name) {
        Some(loc) => Work { loc, time, count },
        None => Work {
            loc: Loc::OutMail,
            time,
            count: 0,
        },
    }
}

// The location of the work that a step does; none, where it writes or is an exchange.
fn loc_of(kind: Kind, first: Name) -> Option<Loc>
    ensures { result ≡ work_of kind first }
{
    match kind {
        Kind::Ingest => Some(Loc::Source),
        Kind::SendControl => Some(Loc::Ctl),
        Kind::Route(stage) => Some(Loc::Route(stage)),
        Kind::Receive(_) => Some(mail_of(first)),
        Kind::Extract(stage) => Some(Loc::Move(stage)),
        Kind::Settle(stage) => Some(Loc::Move(stage)),
        Kind::Apply(stage) => Some(Loc::Host(stage)),
        Kind::SendRow => Some(Loc::OutRoute),
        Kind::Write => None,
        Kind::Exchange => None,
    }
}

// The mailbox location of a name that is received.
fn mail_of(first: Name) -> Loc
    ensures { result ≡ mail_of first }
{
    match first {
        Name::Ctrl { .. } => Loc::CtlMail,
        Name::Rec { stage, .. } => Loc::Mail(stage),
        Name::Packet { stage, .. } => Loc::State(stage),
        _ => Loc::OutMail,
    }
}
