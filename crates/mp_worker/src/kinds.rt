//! The kinds of step of a job, in the order in which a round of a worker tries them.
ghost use Rattle.std.specs.Prelude.{◌≡◌, ◌<◌, ◌+◌, Some, length, slice_get};
ghost use Rattle.mp_names.specs.Outlines.{Outline};
ghost use Rattle.mp_machine.specs.Places.{kinds_of};

use mp_names::{Kind, Shape};

/// How many kinds of step a worker of a job of this shape has: `4 * stages + workers + 5`.
pub fn count_of_kinds(shape: Shape) -> u64
    ensures { (o : Outline) → o.workers ≡ shape.workers → o.stages ≡ shape.stages
        → result ≡ length (kinds_of o) }
{
    4 * u64::from(shape.stages) + u64::from(shape.workers) + 5
}

/// The kind of a number below that.
pub fn kind_at(shape: Shape, number: u64) -> Kind
    ensures { (o : Outline) → o.workers ≡ shape.workers → o.stages ≡ shape.stages
        → number < length (kinds_of o) → slice_get (kinds_of o) number ≡ Some result }
{
    match number {
        0 => Kind::Ingest,
        1 => Kind::SendControl,
        _ => kind_after(shape, number - 2),
    }
}

// The kind of a number below that, the first two kinds not counted.
fn kind_after(shape: Shape, number: u64) -> Kind
    ensures { (o : Outline) → o.workers ≡ shape.workers → o.stages ≡ shape.stages
        → number + 2 < length (kinds_of o) → slice_get (kinds_of o) (number + 2) ≡ Some result }
{
    let stages = u64::from(shape.stages);
    let receive = stages;
    let extract = receive + u64::from(shape.workers);
    let settle = extract + stages;
    let apply = settle + stages;
    let last = apply + stages;
    if number < receive {
        Kind::Route(number as u32)
    } else if number < extract {
        Kind::Receive((number - receive) as u32)
    } else if number < settle {
        Kind::Extract((number - extract) as u32)
    } else if number < apply {
        Kind::Settle((number - settle) as u32)
    } else if number < last {
        Kind::Apply((number - apply) as u32)
    } else if number == last {
        Kind::SendRow
    } else if number == last + 1 {
        Kind::Write
    } else {
        Kind::Exchange
    }
}
