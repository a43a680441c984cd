//! Who sends a name, to whom, and when.
ghost use Rattle.std.specs.Prelude.{◌≡◌, ◌<◌, ℕ};
ghost use Rattle.mp_names.specs.declared.names.Name.TheVariants.{Rec};
ghost use Rattle.mp_names.specs.Outlines.{control_at, group_owner, receiver, sender, time_of};
ghost use Rattle.mp_chart.specs.Entries.{entry_of};
ghost use Rattle.mp_parted.specs.Fitting.{FitsShape};

use mp_chart::Entry;
use mp_names::{Name, Tag, Time};
use mp_outline_lists::OutlineLists;

/// The time of a name, in units of the event file; 0 of a control record that the job doesn't have.
pub fn time_of<L: OutlineLists>(lists: &L, name: Name) -> Time
    ensures { result ≡ time_of (L.outline lists.now) name }
{
    match name {
        Name::Ctrl { index, .. } => control_time(lists, index),
        Name::Rec { time, .. }
        | Name::Packet { time, .. }
        | Name::Row { time, .. }
        | Name::Group { time, .. }
        | Name::Settled { time, .. }
        | Name::Written { time } => time,
    }
}

// The time of the control record at an index, 0 where there is none.
fn control_time<L: OutlineLists>(lists: &L, index: u32) -> Time
    ensures { result ≡ (control_at (L.outline lists.now) index).time }
{
    match lists.controls().get(index as usize) {
        Some(control) => control.time,
        None => 0,
    }
}

/// The worker that sends a name; 0 for a name that isn't sent.
pub fn sender_of<L: OutlineLists>(lists: &L, name: Name) -> u32
    requires { FitsShape (L.outline lists.now) name }
    ensures sender { result ≡ sender (L.outline lists.now) name }
    ensures worker { result < (L.outline lists.now).workers }
{
    lists.are_sound();
    match name {
        Name::Rec {
            stage,
            time,
            tag,
            ..
        } => record_sender(lists, stage, time, tag),
        Name::Packet { stage, bin, time } => lists.owner_before(stage, bin, time),
        Name::Row { time, tag } => owner_of(lists, lists.stages() - 1, time, tag.0),
        _ => 0,
    }
}

// The worker that sends a record: of stage 0 the one whose share has its event, of a later stage the owner of the group that gave it.
fn record_sender<L: OutlineLists>(lists: &L, stage: u32, time: Time, tag: Tag) -> u32
    requires some { 0 < (L.outline lists.now).workers }
    requires stage { stage < (L.outline lists.now).stages }
    ensures sender { (k : ℕ) → result ≡ sender (L.outline lists.now) (Rec stage time k tag) }
    ensures worker { result < (L.outline lists.now).workers }
{
    if stage == 0 {
        (tag.1 % u64::from(lists.workers())) as u32
    } else {
        owner_of(lists, stage - 1, time, tag.0)
    }
}

/// The worker that a name is sent to; 0 for a name that isn't sent.
pub fn receiver_of<L: OutlineLists>(lists: &L, name: Name) -> u32
    requires { FitsShape (L.outline lists.now) name }
    ensures receiver { result ≡ receiver (L.outline lists.now) name }
    ensures worker { result < (L.outline lists.now).workers }
{
    lists.are_sound();
    match name {
        Name::Ctrl { to, .. } => to,
        Name::Rec {
            stage,
            time,
            key,
            ..
        } => owner_of(lists, stage, time, key),
        Name::Packet { stage, bin, time } => lists.owner_at(stage, bin, time),
        _ => 0,
    }
}

/// The worker that owns the group of a key at a time. The stage is one of the job's.
pub fn owner_of<L: OutlineLists>(lists: &L, stage: u32, time: Time, key: u64) -> u32
    requires { stage < (L.outline lists.now).stages }
    ensures owner { result ≡ group_owner (L.outline lists.now) stage time key }
    ensures worker { result < (L.outline lists.now).workers }
{
    lists.owner_at(stage, lists.bin_of(key), time)
}

/// A name with its time and its receiver.
pub fn entry_of<L: OutlineLists>(lists: &L, name: Name) -> Entry
    requires { FitsShape (L.outline lists.now) name }
    ensures { result ≡ entry_of (L.outline lists.now) name }
{
    Entry {
        name,
        time: time_of(lists, name),
        receiver: receiver_of(lists, name),
    }
}
