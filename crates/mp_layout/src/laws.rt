//! What holds of all bins, as the contract of a function that does nothing.
ghost use Rattle.mp_layout.specs.Bins.{BinsAreLeadingBits};

/// Of a power of two of bins, the bin of a key is the number that the leading bits of its hash say.
pub fn bins_are_leading_bits()
    ensures { BinsAreLeadingBits }
{}
