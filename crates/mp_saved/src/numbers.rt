//! Numbers as a text.
ghost use Rattle.std.specs.Prelude.{◌≡◌, ◌++◌, ◌∷◌, IfOk, OnOk};
ghost use Rattle.std.specs.Fmt.{decimal};
ghost use Rattle.std.specs.List.{flat_map};
ghost use Rattle.std.specs.Option.{option_map};
ghost use Rattle.mp_saved.specs.Numbers.{numbers_in, numbers_text};

use crate::Words;
use mp_text::{number, put_number};
use std::alloc::{AllocError, Global};

/// Appends numbers, cut by `|`. `AllocError`: no memory, and some of them may be appended.
pub fn put_numbers(out: &mut Vec<u8>, numbers: &[u64]) -> Result<(), AllocError>
    ensures { OnOk result (out.new.items ≡ out.old.items ++ numbers_text numbers.now) }
{
    let Some((first, others)) = numbers.split_first() else {
        return Ok(());
    };
    put_number(out, *first)?;
    put_more(out, others)?;
    Ok(())
}

/// Appends numbers, each after a `|`. `AllocError`: no memory, and some of them may be appended.
pub fn put_more(out: &mut Vec<u8>, numbers: &[u64]) -> Result<(), AllocError>
    ensures { OnOk result (out.new.items ≡ out.old.items ++ flat_map (λ n. 124 ∷ decimal n) numbers.now) }
{
    for n in numbers {
        out.push(b'|')?;
        put_number(out, *n)?;
    }
    Ok(())
}

/// The numbers of a text, if each of its words is one of at most 64 bits. `AllocError`: no memory.
pub fn read_numbers(alloc: Global, text: &[u8]) -> Result<Option<Vec<u64>>, AllocError>
    ensures { IfOk result (λ found. option_map (λ v. v.items) found ≡ numbers_in text.now) }
{
    let mut words = Words::over(text);
    let mut numbers = Vec::new(alloc);
    while let Some(word) = words.word() {
        let Ok(n) = number(word, u64::MAX) else {
            return Ok(None);
        };
        numbers.push(n)?;
    }
    Ok(Some(numbers))
}
