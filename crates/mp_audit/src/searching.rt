//! The search.
ghost use Rattle.std.specs.Prelude.{◌≡◌, ◌<◌, ◌^◌, ℕ, Err, IfOk, IsTrue, Ok, OnOk, length, map, true, false, ◌↔◌};
ghost use Rattle.mp_machine.specs.Worlds.{World, start_of_machine};
ghost use Rattle.mp_machine.specs.Runs.{IsFinished};
ghost use Rattle.mp_journal_laws.specs.Searches.{AllAreTaken};
ghost use Rattle.mp_audit.specs.Going.{Goes, HasLegalMerge, HasNone, Passes, Tries, Waits};
ghost use Rattle.mp_audit.specs.declared.searching.AuditStop.TheVariants.{NoRun};
ghost use Rattle.mp_audit.specs.Lists.{IsAlone, list_of, one_taken};

use crate::left::{Left, is_exchange};
use crate::playing::Play;
use mp_names::Kept;
use std::alloc::{AllocError, Global};

/// Why a search gives no number of steps.
#[derive(Clone, Copy, Debug)]
pub enum AuditStop {
    /// The journal has no legal merge.
    NoRun,
    /// Want of memory.
    NoMemory,
}

/// Whether an exchange may be taken by what the others' exchanges carry: it doesn't change the posted log, or it comes before
/// them.
fn is_free<P: Play>(player: &P, left: &Left, worker: usize) -> bool
    requires { worker < 2 ^ 32 }
    ensures { (world : World) → P.shows player.now world → let w = world.worker worker in
        (IsTrue result ↔ ((w.log ≡ w.posted → ⊥) → IsAlone (list_of left.now) worker world.version)) }
{
    player.is_posted(worker as u32) || left.is_alone(worker, player.version())
}

/// Takes a worker's next step, where it may be taken: whether it was.
fn take_next<P: Play>(player: &mut P, left: &mut Left, worker: usize) -> Result<bool, AllocError>
    requires few { worker < 2 ^ 32 }
    requires worker { worker < length left.old }
    ensures outline { P.outline player.new ≡ P.outline player.old }
    ensures depth { P.depth player.new ≡ P.depth player.old }
    ensures one { result ≡ Ok true → left.new ≡ one_taken left.old worker }
    ensures still { result ≡ Ok false → left.new ≡ left.old }
    ensures some { result ≡ Ok true → 0 < length (list_of left.old worker) }
    ensures taken { result ≡ Ok true
        → Goes (P.outline player.old) (P.depth player.old) (P.shows player.old) (list_of left.old)
        (P.shows player.new) (list_of left.new) 1 }
    ensures refused { result ≡ Ok false
        → Waits (P.outline player.old) (P.depth player.old) (P.shows player.old) (list_of left.old)
        (P.shows player.new) worker }
{
    let Some(step) = left.next(worker) else {
        return Ok(false);
    };
    if is_exchange(step.kind) && !is_free(player, left, worker) {
        return Ok(false);
    }
    if !player.make(worker as u32, step)? {
        return Ok(false);
    }
    left.take(worker);
    Ok(true)
}

/// Takes a worker's steps as long as they may be taken: how many were. Where none was, its next may not be.
fn take_all<P: Play>(player: &mut P, left: &mut Left, worker: usize) -> Result<u64, AllocError>
    requires few { worker < 2 ^ 32 }
    requires worker { worker < length left.old }
    ensures outline { P.outline player.new ≡ P.outline player.old }
    ensures depth { P.depth player.new ≡ P.depth player.old }
    ensures workers { OnOk result (length left.new ≡ length left.old) }
    ensures still { result ≡ Ok 0 → left.new ≡ left.old }
    ensures went { IfOk result (λ n.
        Tries (P.outline player.old) (P.depth player.old) (P.shows player.old) (list_of left.old)
        (P.shows player.new) (list_of left.new) worker n) }
{
    let mut taken: u64 = 0;
    for _ in 0..left.count(worker) {
        if !take_next(player, left, worker)? {
            return Ok(taken);
        }
        taken += 1;
    }
    Ok(taken)
}

/// Takes the steps of each worker in turn as long as they may be taken: how many were. Where none was, none may be.
fn pass<P: Play>(player: &mut P, left: &mut Left) -> Result<u64, AuditStop>
    requires few { length left.old < 2 ^ 32 }
    ensures outline { P.outline player.new ≡ P.outline player.old }
    ensures depth { P.depth player.new ≡ P.depth player.old }
    ensures workers { OnOk result (length left.new ≡ length left.old) }
    ensures went { IfOk result (λ n.
        Passes (P.outline player.old) (P.depth player.old) (P.shows player.old) (list_of left.old)
        (P.shows player.new) (list_of left.new) n) }
{
    let mut taken: u64 = 0;
    for worker in 0..left.workers() {
        let Ok(some) = take_all(player, left, worker) else {
            return Err(AuditStop::NoMemory);
        };
        let Some(more) = taken.checked_add(some) else {
            return Err(AuditStop::NoMemory);
        };
        taken = more;
    }
    Ok(taken)
}

/// What a search that can't go on has found: a merge, if it took all steps and all is over.
fn found<P: Play>(player: &P, left: &Left, count: u64) -> Result<u64, AuditStop>
    ensures all { OnOk result (AllAreTaken (list_of left.now)) }
    ensures over { OnOk result ((world : World) → P.shows player.now world → IsFinished (P.outline player.now) world) }
    ensures count { IfOk result (λ n. n ≡ count) }
    ensures none { result ≡ Err NoRun → (world : World) → P.shows player.now world
        → AllAreTaken (list_of left.now) → IsFinished (P.outline player.now) world → ⊥ }
{
    if left.is_empty() && player.is_finished() {
        Ok(count)
    } else {
        Err(AuditStop::NoRun)
    }
}

/// The search, from where no step is taken.
fn go_on<P: Play>(player: &mut P, left: &mut Left) -> Result<u64, AuditStop>
    requires few { length left.old < 2 ^ 32 }
    requires start { P.shows player.old (start_of_machine (P.outline player.old)) }
    ensures found { IfOk result (λ n. HasLegalMerge (P.outline player.old) (P.depth player.old) (list_of left.old) n) }
    ensures none { result ≡ Err NoRun → HasNone (P.outline player.old) (P.depth player.old) (list_of left.old) }
{
    let mut count: u64 = 0;
    for _ in 0..u64::MAX {
        let Ok(taken) = pass(player, left) else {
            return Err(AuditStop::NoMemory);
        };
        if taken == 0 {
            return found(player, left, count);
        }
        let Some(more) = count.checked_add(taken) else {
            return Err(AuditStop::NoMemory);
        };
        count = more;
    }
    Err(AuditStop::NoMemory)
}

/// Searches for a legal merge of the journal's steps: any step that may be taken is taken, until none may be. The player stands
/// at the machine's start. `NoRun` exactly where there is no legal merge; else how many steps it has. `NoMemory` is the player's
/// want of memory, or comes where there are more steps than a u64 counts.
pub fn search<P: Play>(
    alloc: Global,
    player: &mut P,
    journal: &[Vec<Kept>],
) -> Result<u64, AuditStop>
    requires few { length journal.now < 2 ^ 32 }
    requires start { P.shows player.old (start_of_machine (P.outline player.old)) }
    ensures found { let lists = map (λ v. v.items) journal.now in
        IfOk result (λ n. HasLegalMerge (P.outline player.old) (P.depth player.old) (list_of lists) n) }
    ensures none { let lists = map (λ v. v.items) journal.now in
        result ≡ Err NoRun → HasNone (P.outline player.old) (P.depth player.old) (list_of lists) }
{
    let Ok(mut left) = Left::all(alloc, journal) else {
        return Err(AuditStop::NoMemory);
    };
    go_on(player, &mut left)
}
