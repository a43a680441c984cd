//! What an order is.
ghost use Rattle.std.specs.Prelude.{◌≡◌, ℕ, List};
ghost use Rattle.mp_names.specs.Names.{is_before};

/// An order of items, by ranks that contracts alone see.
pub trait Order<T> {
    // What decides which of two items comes first: lists of numbers, compared as words are in a dictionary.
    ghost rank: { T → List ℕ };

    /// Whether the first item comes before the second.
    fn is_before(first: &T, second: &T) -> bool
        ensures { result ≡ is_before (rank first.now) (rank second.now) };
}
