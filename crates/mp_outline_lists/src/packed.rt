//! Two numbers as one, which is sorted several times as fast as they are.
ghost use Rattle.std.specs.Prelude.{◌≡◌, ◌<◌, ◌/◌, ◌%◌, IfSome};

/// The number whose quotient and remainder by this width are two numbers; `None` where there is none of 64 bits.
pub(crate) fn packed(first: u64, second: u64, width: u64) -> Option<u64>
    ensures some { IfSome result (λ n. 0 < width) }
    ensures first { IfSome result (λ n. n / width ≡ first) }
    ensures second { IfSome result (λ n. n % width ≡ second) }
{
    if second >= width {
        return None;
    }
    let start = first.checked_mul(width)?;
    let number = start.checked_add(second)?;
    Some(number)
}
