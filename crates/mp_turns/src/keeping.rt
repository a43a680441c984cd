//! What a worker keeps of its steps.
ghost use Rattle.std.specs.Prelude.{◌≡◌, ◌<◌, Some, vec_len};
ghost use Rattle.std.specs.Option.{option_map};
ghost use Rattle.std.specs.Vec.{vec_capacity};
ghost use Rattle.mp_turns.specs.Keeping.{no_steps, steps_after};

use crate::{Stop, Turn};
use mp_names::{Kept, Kind};
use std::alloc::Global;

/// What a worker that has made no step keeps. It takes no memory.
pub fn kept_at_first(alloc: Global, keeps: bool) -> Option<Vec<Kept>>
    ensures { option_map (λ kept. kept.items) result ≡ no_steps keeps }
{
    if keeps { Some(Vec::new(alloc)) } else { None }
}

/// A step of this kind that was made is kept, of an exchange with the version that it saw; where it wasn't made nothing is.
pub fn keep(kept: &mut Vec<Kept>, kind: Kind, answer: &Result<Turn, Stop>)
    requires room { vec_len kept.old < vec_capacity kept.old }
    ensures { Some kept.new.items ≡ steps_after (Some kept.old.items) kind answer.now }
{
    match *answer {
        Ok(Turn::Did(_, _)) => kept.push_reserved(Kept { kind, version: 0 }),
        Ok(Turn::Seen(version)) => kept.push_reserved(Kept { kind, version }),
        _ => {}
    }
}
