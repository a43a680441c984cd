//! The groups of a stage.
ghost use Rattle.std.specs.Prelude.{◌≡◌, IfOk, filter, map};
ghost use Rattle.mp_names.specs.Outlines.{due_groups, groups_of, is_before_stop};
ghost use Rattle.mp_outline_lists.specs.Groups.{is_due};
ghost use Rattle.mp_outline_lists.specs.Moments.{group_at};

use crate::lists::OutlineLists;
use crate::moments::Moment;
use mp_names::{Name, Time};
use std::alloc::{AllocError, Global};

/// The groups of a stage that are to be applied, by time and key, where these are when its groups are. `AllocError`: no memory.
pub fn due_groups<L: OutlineLists>(
    alloc: Global,
    lists: &L,
    stage: u32,
    moments: &[Moment],
) -> Result<Vec<Name>, AllocError>
    requires { map (group_at stage) moments.now ≡ groups_of (L.outline lists.now) stage }
    ensures { IfOk result (λ names. names.items ≡ due_groups (L.outline lists.now) stage) }
{
    lists.are_sound();
    let mut names = names_at(alloc, stage, moments)?;
    keep_due(&mut names, lists.until());
    Ok(names)
}

// The groups of a stage at these moments. `AllocError`: no memory.
fn names_at(alloc: Global, stage: u32, moments: &[Moment]) -> Result<Vec<Name>, AllocError>
    ensures { IfOk result (λ names. names.items ≡ map (group_at stage) moments.now) }
{
    let name = |moment: &Moment| Name::Group {
        stage,
        time: moment.time,
        key: moment.key,
    };
    moments.iter().map(name).collect(alloc)
}

// Keeps the groups that are before the stop time, where there is one.
fn keep_due(names: &mut Vec<Name>, until: Option<Time>)
    ensures { names.new.items ≡ filter (is_due until) names.old.items }
{
    names.retain(
        |name: &Name| -> bool
            ensures { result ≡ is_due until name.now }
        { is_due(*name, until) },
    );
}

// Whether a group is before the stop time, where there is one.
fn is_due(name: Name, until: Option<Time>) -> bool
    ensures { result ≡ is_due until name }
{
    match (name, until) {
        (Name::Group { time, .. }, Some(stop)) => time < stop,
        _ => true,
    }
}
