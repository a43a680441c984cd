//! The bin of a key.
ghost use Rattle.std.specs.Prelude.{◌≡◌, ◌<◌};
ghost use Rattle.mp_layout.specs.Bins.{IsBinCount, bin_of_key};

/// What keys are multiplied by: 2^64 divided by the golden ratio, made odd, as in Fibonacci hashing.
const MULTIPLIER: u64 = 0x9E37_79B9_7F4A_7C15;

/// The bin of a key among `bins` bins, a power of two from 1 to 4096: the leading log2(bins) bits of the
/// key's hash (this project's profile of Megaphone's bins).
pub fn bin_of(key: u64, bins: u32) -> u32
    requires { IsBinCount bins }
    ensures value { result ≡ bin_of_key key bins }
    ensures inside { result < bins }
{
    let hash = key.wrapping_mul(MULTIPLIER);
    (u128::from(hash) * u128::from(bins) >> 64) as u32
}
