//! The time in the first line of a checkpoint's file, loosely: what comes of other texts is open.
ghost use Rattle.std.specs.Prelude.{◌≡◌, ◌≢◌, ◌++◌, ◌∷◌, ◌<◌, ◌^◌, ℕ, List, All, IfOk, Some};
ghost use Rattle.std.specs.Fmt.{decimal};
ghost use Rattle.mp_checkpoint_laws.specs.Files.{first_line, format_of};
ghost use Rattle.mp_checkpoint.specs.Firsts.{byte_behind};

use crate::lines::put_front;
use crate::matching::behind;
use crate::reading::cut_at;
use mp_model::Time;
use mp_saved::Saved;
use mp_text::number;
use std::alloc::{AllocError, Global};

/// The time that the first line of a text says. `AllocError`: no memory.
pub fn time_in<Q: Saved>(alloc: Global, query: &Q, text: &[u8]) -> Result<Option<Time>, AllocError>
    ensures { (t : ℕ) (rest : List ℕ) → t < 2 ^ 64 → text.now ≡ first_line (format_of Q.NUMBER (Q.values query.now) (Q.facts (Q.values query.now)) Q.text_of) t ++ 10 ∷ rest →
        IfOk result (λ found. found ≡ Some t) }
{
    let mut front = Vec::new(alloc);
    put_front::<Q>(&mut front)?;
    let Some(rest) = behind(front.as_slice(), text) else {
        return Ok(None);
    };
    let end = byte_behind(query.values().as_slice());
    Ok(number_before(end, rest))
}

// The byte behind the time of a query with these values.
fn byte_behind(values: &[u64]) -> u8
    ensures { result ≡ byte_behind values.now }
{
    match values {
        [] => b'\n',
        [_, ..] => b'|',
    }
}

// The number in front of the first byte of this kind.
fn number_before(end: u8, text: &[u8]) -> Option<u64>
    ensures { (n : ℕ) (rest : List ℕ) → n < 2 ^ 64 → All (λ b. b ≢ end) (decimal n) → text.now ≡ decimal n ++ end ∷ rest → result ≡ Some n }
{
    let (word, _) = cut_at(end, text)?;
    match number(word, u64::MAX) {
        Ok(number) => Some(number),
        Err(_) => None,
    }
}
