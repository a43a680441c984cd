//! A list of a few values.
ghost use Rattle.std.specs.Prelude.{◌≡◌, ◌<◌, ◌≤◌, ◌↔◌, ◌++◌, ◌∷◌, [], length, IsTrue};

use std::marker::Model;

/// A list of at most `N` values, in place, without memory of its own. Contracts see the list of them.
pub struct ShortList<T: Copy, const N: usize> {
    places: [T; N],
    count: usize,
}

// By hand, so that crates above call it and don't write out the drop of each field.
impl<T: Copy, const N: usize> Drop for ShortList<T, N> {
    fn drop(self) {
        let ShortList {
            places: _,
            count: _,
        } = self;
    }
}

impl<T: Copy, const N: usize> Model for ShortList<T, N> {
    ghost use Rattle.std.specs.Prelude.{List, ◌≤◌, take};

    ghost Value = { List T };

    ghost view = { λ l. take l.count l.places };

    ghost invariant = { λ l. l.count ≤ N };
}

impl<T: Copy, const N: usize> ShortList<T, N> {
    /// No values. A place holds `filler` until a value is pushed to it.
    pub fn new(filler: T) -> ShortList<T, N>
        ensures { result ≡ [] }
    {
        ShortList {
            places: [filler; N],
            count: 0,
        }
    }

    /// Adds a value at the end.
    pub fn push(&mut self, value: T)
        requires { length self.old < N }
        ensures { self.new ≡ self.old ++ value ∷ [] }
    {
        self.places[self.count] = value;
        self.count += 1;
    }

    /// How many values the list has.
    pub fn len(&self) -> usize
        ensures { result ≡ length self.now }
    {
        self.count
    }

    /// Whether there is room for no more values.
    pub fn is_full(&self) -> bool
        ensures full { IsTrue result ↔ (length self.now ≡ N) }
        ensures within { length self.now ≤ N }
    {
        self.count == N
    }

    /// The values, in order.
    pub fn as_slice(&self) -> &[T]
        ensures { result.now ≡ self.now }
    {
        &self.places[..self.count]
    }
}
