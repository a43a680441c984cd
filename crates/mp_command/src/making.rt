//! The command `make`: events that are made from a seed, as a file.
ghost use Rattle.std.specs.Prelude.{◌≡◌, OnErr, OnOk, IfErr, Some};
ghost use Rattle.mp_outside.specs.Fault.{Rose};
ghost use Rattle.mp_words.specs.Values.{make_in};
ghost use Rattle.mp_words.specs.Words.{Make};
ghost use Rattle.mp_command_files.specs.Outcome.{StopsAnswer};
ghost use Rattle.mp_command.specs.Ends.{CameTo, Leaves};
ghost use Rattle.mp_command_files.specs.Refused.{EndsAs, outcome_in, outcome_of};
ghost use Rattle.mp_command.specs.Writing.{NoneKept, WritesAll, WritesSome, made_file, targets_of};

use mp_command_files::{Refusal, events_to};
use mp_make::make_events;
use mp_outside::Depot;
use mp_words::MakeOptions;
use std::alloc::Global;

/// Makes events, and makes a file hold their lines. It says nothing. `WriteFault`: the file couldn't be begun or
/// appended to; `NoMemory`: no memory.
pub fn make<'a, D: Depot>(
    alloc: Global,
    depot: &mut D,
    options: &MakeOptions<'a>,
) -> Result<Vec<u8>, Refusal<'a>>
    ensures came { CameTo D.files D.found D.read_faults D.write_faults
        (Some (Make (make_in options.now))) (outcome_in result) depot.old depot.new }
    ensures left { Leaves NoneKept (Make (make_in options.now)) (outcome_in result)
        (D.files depot.old) (D.files depot.new) }
{
    make_file(alloc, depot, options)?;
    Ok(Vec::new(alloc))
}

/// Makes events, and makes a file hold their lines. `WriteFault`: the file couldn't be begun or
/// appended to; `NoMemory`: no memory.
fn make_file<'a, D: Depot>(
    alloc: Global,
    depot: &mut D,
    options: &MakeOptions<'a>,
) -> Result<(), Refusal<'a>>
    ensures whole { let asked = make_in options.now in OnOk result
        (WritesAll (λ _ text. text ≡ made_file asked) (targets_of (Make asked)) (D.files depot.old) (D.files depot.new)) }
    ensures part { let asked = make_in options.now in OnErr result
        (WritesSome (λ _ text. text ≡ made_file asked) (targets_of (Make asked)) (D.files depot.old) (D.files depot.new)) }
    ensures refused { IfErr result (λ r. StopsAnswer (outcome_of r)) }
    ensures failed { IfErr result (λ r. EndsAs r 7
        → Rose (D.write_faults depot.old) (D.write_faults depot.new)) }
{
    let events = make_events(alloc, options.count, options.seed)?;
    events_to(alloc, depot, options.out, events.as_slice())
}
