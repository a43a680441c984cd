//! When the groups of a stage are.
ghost use Rattle.std.specs.Prelude.{◌≡◌, ◌<◌, ◌++◌, ◌∷◌, [], ℕ, IfOk, OnOk, Some, get_or, map, slice_get};
ghost use Rattle.std.specs.List.{flat_map};
ghost use Rattle.mp_names.specs.Outlines.{groups_of};
ghost use Rattle.mp_outline_lists.specs.Moments.{AreMomentsOf, group_at, moment_of, moments_made};

use crate::lists::OutlineLists;
use crate::once::put_in_order;
use mp_names::{Name, Time};
use std::alloc::{AllocError, Global};

/// When a key has a group. Moments go by time, and those of one time by key.
#[derive(Clone, Copy, PartialEq, Eq, PartialOrd, Ord)]
pub struct Moment {
    /// The time of the group, in units of the event file.
    pub time: Time,
    /// The key.
    pub key: u64,
}

/// When the groups of each stage are, by stage, in their order. `AllocError`: no memory.
pub fn moments_by_stage<L: OutlineLists>(
    alloc: Global,
    lists: &L,
) -> Result<Vec<Vec<Moment>>, AllocError>
    ensures { IfOk result (λ moments. AreMomentsOf (L.outline lists.now) (map (λ own. own.items) moments.items)) }
{
    let mut moments = Vec::new(alloc);
    for stage in 0..lists.stages() {
        moments.push(moments_of(alloc, lists, stage)?)?;
    }
    Ok(moments)
}

/// Those of a stage; none where there is no such stage.
pub fn moments_at(moments: &[Vec<Moment>], stage: u32) -> &[Moment]
    ensures { result.now ≡ get_or (map (λ own. own.items) moments.now) stage [] }
{
    match moments.get(stage as usize) {
        Some(own) => own,
        None => &[],
    }
}

// When the groups of a stage are, in their order. Takes n log n comparisons of n numbers for n groups that are made.
// `AllocError`: no memory.
fn moments_of<L: OutlineLists>(
    alloc: Global,
    lists: &L,
    stage: u32,
) -> Result<Vec<Moment>, AllocError>
    requires { stage < (L.outline lists.now).stages }
    ensures { let o = L.outline lists.now in
        IfOk result (λ moments. map (group_at stage) moments.items ≡ groups_of o stage) }
{
    let mut moments = Vec::new(alloc);
    add_groups(&mut moments, lists.opening(stage))?;
    add_made(&mut moments, lists, stage)?;
    lists.are_sound();
    put_in_order(alloc, &mut moments)?;
    Ok(moments)
}

// Adds when groups are. `AllocError`: no memory.
fn add_groups(moments: &mut Vec<Moment>, groups: &[Name]) -> Result<(), AllocError>
    ensures { OnOk result (moments.new.items ≡ moments.old.items ++ map moment_of groups.now) }
{
    for group in groups {
        moments.push(moment_of(*group))?;
    }
    Ok(())
}

// Adds when the groups are that the records of a stage make. `AllocError`: no memory.
fn add_made<L: OutlineLists>(
    moments: &mut Vec<Moment>,
    lists: &L,
    stage: u32,
) -> Result<(), AllocError>
    requires { stage < (L.outline lists.now).stages }
    ensures { let o = L.outline lists.now in
        OnOk result (moments.new.items ≡ moments.old.items ++ flat_map (moments_made o) (o.records stage)) }
{
    let records = lists.records(stage);
    for (place, maker) in records.iter().enumerate() {
        add_made_by(moments, lists, stage, place, *maker)?;
    }
    Ok(())
}

// Adds when the groups are that the record at a place of a stage's list makes. `AllocError`: no memory.
fn add_made_by<L: OutlineLists>(
    moments: &mut Vec<Moment>,
    lists: &L,
    stage: u32,
    place: usize,
    maker: Name,
) -> Result<(), AllocError>
    requires { slice_get ((L.outline lists.now).records stage) place ≡ Some maker }
    ensures { OnOk result (moments.new.items ≡ moments.old.items ++ moments_made (L.outline lists.now) maker) }
{
    lists.are_sound();
    let own = moment_of(maker);
    moments.push(own)?;
    if stage > 0 {
        return Ok(());
    }
    add_posts(moments, own.key, lists.posts(place))?;
    Ok(())
}

// Adds when a key's groups are that a record posts. `AllocError`: no memory.
fn add_posts(moments: &mut Vec<Moment>, key: u64, posts: &[Time]) -> Result<(), AllocError>
    ensures { OnOk result (moments.new.items ≡ moments.old.items ++ map (λ u. record { time = u; key = key }) posts.now) }
{
    for time in posts {
        moments.push(Moment { time: *time, key })?;
    }
    Ok(())
}

// The time and the key of a record or a group.
fn moment_of(name: Name) -> Moment
    ensures { result ≡ moment_of name }
{
    match name {
        Name::Rec { time, key, .. } => Moment { time, key },
        Name::Group { time, key, .. } => Moment { time, key },
        _ => Moment { time: 0, key: 0 },
    }
}
