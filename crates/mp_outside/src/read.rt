// Reads a whole name of a depot.
ghost use Rattle.std.specs.Prelude.{◌≡◌, ◌≢◌, ◌≤◌, ◌<◌, ◌+◌, ◌^◌, true, false, None, length, take, vec_len, IfOk, OnOk};
ghost use Rattle.mp_outside.specs.Depot.{OnlyReads};
ghost use Rattle.mp_outside.specs.Fault.{Rose};
ghost use Rattle.mp_outside.specs.Files.{file_at, IsThere, IsThereWith};
ghost use Rattle.mp_outside.specs.declared.fault.ReadRefused.TheVariants.{NotThere, Failed, TooLarge};

use crate::{Depot, ReadRefused};
use std::alloc::{AllocError, Global};

// How many bytes one turn asks for at most.
const PART: usize = 65_536;

/// The bytes of a name, of which there may be `most` at most, 2^48 or fewer.
///
/// `NotThere` comes just where `find` answered false, `Failed` only where the depot's read faults rose
/// in this call, `TooLarge` just where the name gave more than `most` bytes, `NoMemory` where an
/// allocation failed; any answer but `Failed` counts no fault. Each turn takes a byte at least, so there are at most `most + 2` of them.
pub fn read_all<D: Depot>(
    alloc: Global,
    depot: &mut D,
    name: &str,
    most: u64,
) -> Result<Vec<u8>, ReadRefused>
    requires { most ≤ 2 ^ 48 }

    ensures bytes { IfOk result (λ v.
        IsThereWith (D.files depot.old) name.now (λ bytes. v.items ≡ bytes)) }
    ensures within { IfOk result (λ v. vec_len v ≤ most) }
    ensures found { OnOk result ((reading : D) × D.found depot.old name.now true reading) }

    ensures not_there { result ≡ Err NotThere → file_at (D.files depot.old) name.now ≡ None }
    ensures not_found { result ≡ Err NotThere → D.found depot.old name.now false depot.new }
    ensures too_large { result ≡ Err TooLarge →
        IsThereWith (D.files depot.old) name.now (λ bytes. most < length bytes) }
    ensures too_large_found { result ≡ Err TooLarge →
        (reading : D) × D.found depot.old name.now true reading }
    ensures failed { result ≡ Err Failed → Rose (D.read_faults depot.old) (D.read_faults depot.new) }
    ensures no_fault { result ≢ Err Failed → D.read_faults depot.new ≡ D.read_faults depot.old }
    ensures reads_only { OnlyReads D.files D.read_faults D.write_faults depot.old depot.new }
{
    if !depot.find(name)? {
        return Err(ReadRefused::NotThere);
    }
    read_there(alloc, depot, name, most)
}

// The bytes of a name that is there.
fn read_there<D: Depot>(
    alloc: Global,
    depot: &mut D,
    name: &str,
    most: u64,
) -> Result<Vec<u8>, ReadRefused>
    requires few { most ≤ 2 ^ 48 }
    requires there { IsThere (D.files depot.old) name.now }

    ensures bytes { IfOk result (λ v.
        IsThereWith (D.files depot.old) name.now (λ bytes. v.items ≡ bytes)) }
    ensures within { IfOk result (λ v. vec_len v ≤ most) }

    ensures not_there { result ≡ Err NotThere → ⊥ }
    ensures too_large { result ≡ Err TooLarge →
        IsThereWith (D.files depot.old) name.now (λ bytes. most < length bytes) }
    ensures failed { result ≡ Err Failed → Rose (D.read_faults depot.old) (D.read_faults depot.new) }
    ensures no_fault { result ≢ Err Failed → D.read_faults depot.new ≡ D.read_faults depot.old }
    ensures reads_only { OnlyReads D.files D.read_faults D.write_faults depot.old depot.new }
{
    let mut room = zeros(alloc, PART)?;
    let mut bytes = Vec::new(alloc);
    if read_parts(depot, name, most, room.as_mut_slice(), &mut bytes)? {
        return Ok(bytes);
    }
    Err(ReadRefused::TooLarge)
}

fn zeros(alloc: Global, len: usize) -> Result<Vec<u8>, AllocError>
    ensures { IfOk result (λ v. vec_len v ≡ len) }
{
    vec![in alloc; 0; len]
}

// Reads part by part, up to the name's end. False where there are more bytes than `most`.
fn read_parts<D: Depot>(
    depot: &mut D,
    name: &str,
    most: u64,
    room: &mut [u8],
    bytes: &mut Vec<u8>,
) -> Result<bool, ReadRefused>
    requires few { most ≤ 2 ^ 48 }
    requires there { IsThere (D.files depot.old) name.now }
    requires room { length room.old ≡ 65536 }
    requires none_yet { vec_len bytes.old ≡ 0 }

    ensures whole { IfOk result (λ whole. whole ≡ true →
        IsThereWith (D.files depot.old) name.now (λ file. bytes.new.items ≡ file)) }
    ensures within { IfOk result (λ whole. whole ≡ true → vec_len bytes.new ≤ most) }
    ensures too_large { IfOk result (λ whole. whole ≡ false →
        IsThereWith (D.files depot.old) name.now (λ file. most < length file)) }

    ensures not_there { result ≡ Err NotThere → ⊥ }
    ensures no_error { result ≡ Err TooLarge → ⊥ }
    ensures failed { result ≡ Err Failed → Rose (D.read_faults depot.old) (D.read_faults depot.new) }
    ensures no_fault { result ≢ Err Failed → D.read_faults depot.new ≡ D.read_faults depot.old }
    ensures reads_only { OnlyReads D.files D.read_faults D.write_faults depot.old depot.new }
{
    while bytes.len() as u64 <= most {
        let ask = (most - bytes.len() as u64).min(PART as u64 - 1) as usize + 1;
        if !read_part(depot, name, &mut room[..ask], bytes)? {
            return Ok(true);
        }
    }
    Ok(false)
}

// Puts the next part of a name, as much as the depot gives into the room, behind the bytes that were
// read before. False at the name's end.
fn read_part<D: Depot>(
    depot: &mut D,
    name: &str,
    room: &mut [u8],
    bytes: &mut Vec<u8>,
) -> Result<bool, ReadRefused>
    requires there { IsThere (D.files depot.old) name.now }
    requires so_far { IsThereWith (D.files depot.old) name.now (λ file. bytes.old.items ≡ take (vec_len bytes.old) file) }
    requires room { 0 < length room.old }

    ensures so_far { OnOk result
        (IsThereWith (D.files depot.old) name.now (λ file. bytes.new.items ≡ take (vec_len bytes.new) file)) }
    ensures within { OnOk result (vec_len bytes.new ≤ vec_len bytes.old + length room.old) }
    ensures more { IfOk result (λ more. more ≡ true → vec_len bytes.old < vec_len bytes.new) }
    ensures no_more { IfOk result (λ more. more ≡ false → vec_len bytes.new ≡ vec_len bytes.old) }
    ensures end { IfOk result (λ more. more ≡ false →
        IsThereWith (D.files depot.old) name.now (λ file. bytes.new.items ≡ file)) }

    ensures not_there { result ≡ Err NotThere → ⊥ }
    ensures too_large { result ≡ Err TooLarge → ⊥ }
    ensures failed { result ≡ Err Failed → Rose (D.read_faults depot.old) (D.read_faults depot.new) }
    ensures no_fault { result ≢ Err Failed → D.read_faults depot.new ≡ D.read_faults depot.old }
    ensures reads_only { OnlyReads D.files D.read_faults D.write_faults depot.old depot.new }
{
    let taken = depot.read(name, bytes.len() as u64, room)?;
    bytes.extend_from_slice(&room[..taken])?;
    Ok(taken > 0)
}
