//! Names by time.
ghost use Rattle.std.specs.Prelude.{◌≡◌, ◌↔◌, ◌<◌, ◌%◌, ℕ, Contains, IfOk, IfSome, get_or, length, map};
ghost use Rattle.mp_names.specs.declared.names.Name.{Name};
ghost use Rattle.mp_names.specs.declared.names.Name.TheVariants.{Written};
ghost use Rattle.mp_outline_lists.specs.Packed.{AreFit, TellsPlaces, name_at};

use crate::packed::packed;
use crate::rank::lead_of;
use mp_names::Name;
use std::alloc::{AllocError, Global};

/// The names by time, those of one time in the order that they have. Where the time and the place of each aren't told by one number of 64
/// bits, all stay in the order that they have. `AllocError`: no memory.
pub(crate) fn by_time(alloc: Global, names: &[Name]) -> Result<Vec<Name>, AllocError>
    ensures { IfOk result (λ moved. (x : Name) → Contains moved.items x ↔ Contains names.now x) }
{
    let Some(mut numbers) = numbers_of(alloc, names)? else {
        return copied(alloc, names);
    };
    numbers.sort_unstable();
    let moved = gathered(alloc, names, &numbers)?;
    Ok(moved)
}

// For each name a number, first by its time and then by its place; `None` where they don't fit. `AllocError`: no memory.
fn numbers_of(alloc: Global, names: &[Name]) -> Result<Option<Vec<u64>>, AllocError>
    ensures told { IfOk result (λ found. IfSome found (λ numbers. TellsPlaces (length names.now) (length names.now) numbers.items)) }
    ensures fit { IfOk result (λ found. IfSome found (λ numbers. AreFit (length names.now) numbers.items)) }
{
    let width = names.len() as u64;
    let mut numbers = Vec::with_capacity(alloc, names.len())?;
    for (place, name) in names.iter().enumerate() {
        let Some(number) = packed(lead_of(*name), place as u64, width) else {
            return Ok(None);
        };
        numbers.push(number)?;
    }
    Ok(Some(numbers))
}

// The names at the places that numbers tell. `AllocError`: no memory.
fn gathered(alloc: Global, names: &[Name], numbers: &[u64]) -> Result<Vec<Name>, AllocError>
    requires { AreFit (length names.now) numbers.now }
    ensures { IfOk result (λ moved. moved.items ≡ map (name_at names.now) numbers.now) }
{
    let mut moved = Vec::with_capacity(alloc, numbers.len())?;
    for number in numbers {
        moved.push(name_at(names, *number))?;
    }
    Ok(moved)
}

// The name at the place that a number tells.
fn name_at(names: &[Name], number: u64) -> Name
    requires { 0 < length names.now }
    ensures { result ≡ name_at names.now number }
{
    let place = number % names.len() as u64;
    stands_at(names, place as usize)
}

// The name at a place.
fn stands_at(names: &[Name], place: usize) -> Name
    requires { place < length names.now }
    ensures { result ≡ get_or names.now place (Written 0) }
{
    names[place]
}

// The names in their order. `AllocError`: no memory.
fn copied(alloc: Global, names: &[Name]) -> Result<Vec<Name>, AllocError>
    ensures { IfOk result (λ same. same.items ≡ names.now) }
{
    let mut same = Vec::with_capacity(alloc, names.len())?;
    same.extend_from_slice(names)?;
    Ok(same)
}
