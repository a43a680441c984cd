//! The places of a job: its pairs of a worker and a kind of step, in their order.
ghost use Rattle.std.specs.Prelude.{◌≡◌, ◌<◌, ◌≤◌, ◌+◌, ◌*◌, ◌%◌, ◌^◌, length};
ghost use Rattle.mp_names.specs.Limits.{most_workers};
ghost use Rattle.mp_names.specs.Outlines.{Outline};
ghost use Rattle.mp_machine.specs.Places.{places};
ghost use Rattle.mp_plain.specs.Places.{IsPlaceIn, kind_count, place_number};

use mp_names::Shape;
use mp_worker::count_of_kinds;

/// A place of a job.
#[derive(Clone, Copy)]
pub struct Place {
    /// A worker, from 0.
    pub worker: u32,
    /// The number of a kind of step, from 0, in the order in which a worker's round tries the kinds.
    pub kind: u64,
}

/// How many places there are: for each worker `4 * stages + workers + 5`. There are at most `MAX_WORKERS`
/// workers.
pub fn count_of_places(shape: Shape) -> u64
    requires { shape.workers ≤ most_workers }
    ensures few { result < 2 ^ 41 }
    ensures product { result ≡ shape.workers * kind_count shape }
    ensures count { (o : Outline) → o.workers ≡ shape.workers → o.stages ≡ shape.stages
        → result ≡ length (places o) }
{
    u64::from(shape.workers) * count_of_kinds(shape)
}

/// The place of a number: by worker, and then by kind.
pub fn place_at(shape: Shape, number: u64) -> Place
    requires { number < shape.workers * kind_count shape }
    ensures place { IsPlaceIn shape result }
    ensures number { place_number shape result ≡ number }
{
    let kinds = count_of_kinds(shape);
    Place {
        worker: (number / kinds) as u32,
        kind: number % kinds,
    }
}

/// The place behind this one, and behind the last one the first.
pub fn place_after(shape: Shape, place: Place) -> Place
    requires { IsPlaceIn shape place }
    ensures place { IsPlaceIn shape result }
    ensures number { place_number shape result ≡ (place_number shape place + 1) % (shape.workers * kind_count shape) }
{
    let Place { worker, kind } = place;
    if kind + 1 < count_of_kinds(shape) {
        return Place {
            worker,
            kind: kind + 1,
        };
    }
    let worker = if worker + 1 < shape.workers {
        worker + 1
    } else {
        0
    };
    Place { worker, kind: 0 }
}
