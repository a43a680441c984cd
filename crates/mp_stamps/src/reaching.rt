//! What could result in what.
ghost use Rattle.std.specs.Prelude.{◌≡◌, ◌↔◌, IsTrue};
ghost use Rattle.mp_names.specs.Locations.{Reaches, reaches, from_host, from_mail, from_route, from_state, from_move, from_ctl_mail};

use mp_names::Loc;

/// Whether work at location `a` could result in work at location `b`: a path in the dataflow, of any
/// length, leads from `a` to `b`. As Naiad's could-result-in.
pub fn reaches(a: Loc, b: Loc) -> bool
    ensures table { result ≡ reaches a b }
    ensures paths { IsTrue result ↔ Reaches a b }
{
    stands_in_table(a, b)
}

fn stands_in_table(a: Loc, b: Loc) -> bool
    ensures { result ≡ reaches a b }
{
    match a {
        Loc::Ctl => matches!(b, Loc::Ctl) || from_ctl_mail(b),
        Loc::CtlMail => from_ctl_mail(b),
        Loc::Source => matches!(b, Loc::Source) || from_route(0, b),
        Loc::Route(stage) => from_route(stage, b),
        Loc::Mail(stage) => from_mail(stage, b),
        Loc::Move(stage) => from_move(stage, b),
        Loc::State(stage) => from_state(stage, b),
        Loc::Host(stage) => from_host(stage, b),
        Loc::OutRoute => matches!(b, Loc::OutRoute | Loc::OutMail),
        Loc::OutMail => matches!(b, Loc::OutMail),
    }
}

// What the control records on their way could result in.
fn from_ctl_mail(b: Loc) -> bool
    ensures { result ≡ from_ctl_mail b }
{
    match b {
        Loc::CtlMail | Loc::Move(_) | Loc::State(_) | Loc::Host(_) => true,
        _ => from_host(0, b),
    }
}

fn from_route(stage: u32, b: Loc) -> bool
    ensures { result ≡ from_route stage b }
{
    match b {
        Loc::Route(other) => stage <= other,
        _ => from_mail(stage, b),
    }
}

fn from_mail(stage: u32, b: Loc) -> bool
    ensures { result ≡ from_mail stage b }
{
    match b {
        Loc::Mail(other) => stage <= other,
        _ => from_host(stage, b),
    }
}

fn from_move(stage: u32, b: Loc) -> bool
    ensures { result ≡ from_move stage b }
{
    match b {
        Loc::Move(other) => stage == other,
        _ => from_state(stage, b),
    }
}

fn from_state(stage: u32, b: Loc) -> bool
    ensures { result ≡ from_state stage b }
{
    match b {
        Loc::State(other) => stage == other,
        _ => from_host(stage, b),
    }
}

// The hosts of a stage, and all that comes after them.
fn from_host(stage: u32, b: Loc) -> bool
    ensures { result ≡ from_host stage b }
{
    match b {
        Loc::Route(other) | Loc::Mail(other) => stage < other,
        Loc::Host(other) => stage <= other,
        Loc::OutRoute | Loc::OutMail => true,
        _ => false,
    }
}
