//! The places of locations: first those without a stage, then five for each stage.
ghost use Rattle.std.specs.Prelude.{◌≡◌, ◌<◌, ◌+◌, ◌*◌};
ghost use Rattle.mp_names.specs.declared.locations.Loc.{Loc};
ghost use Rattle.mp_stamps.specs.Places.{place_of, stage_of};

use mp_names::Loc;

/// How many places there may be: five of locations without a stage, and five of each stage.
pub(crate) const PLACES: usize = 25;

/// The place of a location: its number among all, those without a stage first, then five for each stage.
pub fn place_of(loc: Loc) -> usize
    ensures { result ≡ place_of loc }
{
    5 * stage_of(loc) as usize + place_in_stage(loc)
}

// Of which stage a location is, 0 of one without a stage.
fn stage_of(loc: Loc) -> u32
    ensures { result ≡ stage_of loc }
{
    match loc {
        Loc::Route(stage)
        | Loc::Mail(stage)
        | Loc::Move(stage)
        | Loc::State(stage)
        | Loc::Host(stage) => stage,
        _ => 0,
    }
}

// The place of a location, as if it were of the first stage.
fn place_in_stage(loc: Loc) -> usize
    ensures few { result < 10 }
    ensures is { 5 * stage_of loc + result ≡ place_of loc }
{
    match loc {
        Loc::Ctl => 0,
        Loc::CtlMail => 1,
        Loc::Source => 2,
        Loc::OutRoute => 3,
        Loc::OutMail => 4,
        Loc::Route(_) => 5,
        Loc::Mail(_) => 6,
        Loc::Move(_) => 7,
        Loc::State(_) => 8,
        Loc::Host(_) => 9,
    }
}

/// The location of a place.
pub fn loc_at(place: u32) -> Loc
    ensures there { place_of result ≡ place }
    ensures alone { (at : Loc) → place_of at ≡ place → at ≡ result }
{
    if place < 5 {
        without_stage(place)
    } else {
        of_stage((place - 5) / 5, (place - 5) % 5)
    }
}

fn without_stage(place: u32) -> Loc
    requires { place < 5 }
    ensures { place_of result ≡ place }
{
    match place {
        0 => Loc::Ctl,
        1 => Loc::CtlMail,
        2 => Loc::Source,
        3 => Loc::OutRoute,
        _ => Loc::OutMail,
    }
}

fn of_stage(stage: u32, kind: u32) -> Loc
    requires { kind < 5 }
    ensures { place_of result ≡ 5 * stage + kind + 5 }
{
    match kind {
        0 => Loc::Route(stage),
        1 => Loc::Mail(stage),
        2 => Loc::Move(stage),
        3 => Loc::State(stage),
        _ => Loc::Host(stage),
    }
}
