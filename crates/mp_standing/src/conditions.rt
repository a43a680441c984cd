//! What lets a worker make its next step along a list.
ghost use Rattle.std.specs.Prelude.{◌≡◌, ◌↔◌, ◌<◌, ◌≤◌, ◌-◌, ◌^◌, IfSome, IsTrue, true};
ghost use Rattle.std.specs.List.{slice_get};
ghost use Rattle.mp_names.specs.declared.kinds.Kind.{Kind};
ghost use Rattle.mp_names.specs.declared.names.Name.{Name};
ghost use Rattle.mp_machine.specs.Worlds.{Worker};
ghost use Rattle.mp_machine.specs.Steps.{KindFits, MaySendControl};
ghost use Rattle.mp_player_laws.specs.Numbers.{StandsAt, numbers_of};
ghost use Rattle.mp_player_laws.specs.Counted.{IsGivenWithin};
ghost use Rattle.mp_chart.specs.Entries.{entries_of, entry_of};
ghost use Rattle.mp_chart.specs.Lists.{HasSeenEnough, goes_along, to_do};
ghost use Rattle.mp_standing.specs.Numbers.{done_at};
ghost use Rattle.mp_standing.specs.Standings.{Stands, sends as sends_of};

use crate::seeing::{hosts_passed, sees_group, sees_packet, sees_time};
use crate::standing::Standing;
use mp_chart::{Chart, Entry};
use mp_names::{Kind, Loc};
use mp_stamps::passed;

/// The entry at a place of a worker's list, if there is one.
pub fn entry_at<C: Chart>(chart: &C, worker: u32, kind: Kind, place: usize) -> Option<Entry>
    requires { worker < (C.outline chart.now).workers }
    ensures at { result ≡ slice_get (entries_of (C.outline chart.now) (to_do (C.outline chart.now) worker kind)) place }
    ensures few { IfSome result (λ e. place < 2 ^ 64 - 1) }
{
    chart.list(worker, kind).get(place).copied()
}

/// Whether the job has the stage that a kind names, if it names one.
pub fn fits<C: Chart>(chart: &C, kind: Kind) -> bool
    requires { goes_along kind ≡ true }
    ensures { IsTrue result ↔ KindFits (C.outline chart.now) kind }
{
    match kind {
        Kind::Extract(stage) => stage < chart.stages(),
        Kind::Settle(stage) => stage < chart.stages(),
        Kind::Apply(stage) => stage < chart.stages(),
        _ => true,
    }
}

/// Whether a worker has seen enough, and done enough of other lists, for the step with this entry, to which it has come.
pub fn has_seen_enough<C: Chart>(
    chart: &C,
    worker: u32,
    kind: Kind,
    entry: Entry,
    standing: &Standing,
) -> bool
    requires worker { worker < (C.outline chart.now).workers }
    requires along { goes_along kind ≡ true }
    ensures { (x : Name) (of : Worker) → let o = C.outline chart.now in
        KindFits o kind → StandsAt (to_do o worker kind) (done_at standing.now.done kind) x → entry ≡ entry_of o x
        → Stands o worker standing.now of → (0 < o.stages) → IsTrue result ↔ HasSeenEnough o worker of kind x }
{
    let place = standing.done.count(kind);
    match kind {
        Kind::SendControl => may_send(chart, worker, place, standing),
        Kind::Extract(stage) => sees_packet(&standing.seen, stage, entry.time),
        Kind::Settle(stage) => {
            let next = Kind::Extract(stage);
            let packet = entry_at(chart, worker, next, standing.done.count(next));
            sees_time(&standing.seen, entry.time, packet)
        }
        Kind::Apply(stage) => sees_group(&standing.seen, stage, entry.time),
        Kind::SendRow => has_row(chart, worker, place, standing),
        Kind::Write => worker == 0 && passed(standing.seen.frontier(Loc::OutMail), entry.time),
        _ => true,
    }
}

// Whether the control record at a place may go out.
fn may_send<C: Chart>(chart: &C, worker: u32, place: usize, standing: &Standing) -> bool
    requires { worker < (C.outline chart.now).workers }
    ensures { (x : Name) (of : Worker) → let o = C.outline chart.now in
        StandsAt (to_do o worker Kind.SendControl) place x → Stands o worker standing.now of → IsTrue result ↔ MaySendControl o of x }
{
    match chart.pace(worker, place) {
        Some(time) => hosts_passed(&standing.seen, chart.stages(), time),
        None => true,
    }
}

// Whether the group that gives the answer row at a place is applied.
fn has_row<C: Chart>(chart: &C, worker: u32, place: usize, standing: &Standing) -> bool
    requires { worker < (C.outline chart.now).workers }
    ensures { (x : Name) (of : Worker) → let o = C.outline chart.now in
        StandsAt (to_do o worker Kind.SendRow) place x → Stands o worker standing.now of → (0 < o.stages)
        → IsTrue result ↔ IsGivenWithin o worker ((numbers_of of.log).groups (o.stages - 1)) x }
{
    let last = chart.stages().saturating_sub(1);
    is_within(
        chart.groups_before(worker, place),
        standing.done.count(Kind::Apply(last)),
    )
}

fn is_within(least: usize, number: usize) -> bool
    ensures { IsTrue result ↔ least ≤ number }
{
    least <= number
}

/// Whether a step along a list sends its name.
pub fn sends(kind: Kind) -> bool
    ensures { result ≡ sends_of kind }
{
    matches!(kind, Kind::SendControl | Kind::Extract(_) | Kind::SendRow)
}
