//! Moments in order.
ghost use Rattle.std.specs.Prelude.{◌≡◌, ◌<◌, ◌/◌, ◌%◌, ℕ, IfOk, IfSome, OnOk, map};
ghost use Rattle.mp_names.specs.Names.{ascending};
ghost use Rattle.mp_outline_lists.specs.Moments.{group_at};
ghost use Rattle.mp_outline_lists.specs.Packed.{moment_in};

use crate::moments::Moment;
use crate::packed::packed;
use std::alloc::{AllocError, Global};

/// Puts moments in order, and keeps each once: by numbers, where those of 64 bits tell them. `AllocError`: no memory.
pub(crate) fn put_in_order(alloc: Global, moments: &mut Vec<Moment>) -> Result<(), AllocError>
    ensures { OnOk result ((j : ℕ) → map (group_at j) moments.new.items ≡ ascending (map (group_at j) moments.old.items)) }
{
    let width = width_over(moments);
    let Some(mut numbers) = numbers_of(alloc, moments, width)? else {
        moments.sort_unstable();
        moments.dedup();
        return Ok(());
    };
    numbers.sort_unstable();
    numbers.dedup();
    put_back(moments, width, &numbers)?;
    Ok(())
}

// A number above all keys, where there is one.
fn width_over(moments: &[Moment]) -> u64
    ensures { 0 < result }
{
    let mut greatest = 0;
    for moment in moments {
        greatest = moment.key.max(greatest);
    }
    greatest.saturating_add(1)
}

// For each moment a number, by its time and its key; `None` where they don't fit. `AllocError`: no memory.
fn numbers_of(alloc: Global, moments: &[Moment], width: u64) -> Result<Option<Vec<u64>>, AllocError>
    ensures moments { IfOk result (λ found. IfSome found (λ numbers. map (moment_in width) numbers.items ≡ moments.now)) }
{
    let mut numbers = Vec::with_capacity(alloc, moments.len())?;
    for moment in moments {
        let Some(number) = packed(moment.time, moment.key, width) else {
            return Ok(None);
        };
        numbers.push(number)?;
    }
    Ok(Some(numbers))
}

// The moments of these numbers take the place of others. `AllocError`: no memory.
fn put_back(moments: &mut Vec<Moment>, width: u64, numbers: &[u64]) -> Result<(), AllocError>
    requires { 0 < width }
    ensures { OnOk result (moments.new.items ≡ map (moment_in width) numbers.now) }
{
    moments.clear();
    for number in numbers {
        moments.push(Moment {
            time: *number / width,
            key: *number % width,
        })?;
    }
    Ok(())
}
