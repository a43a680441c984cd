//! The words of a text.
ghost use Rattle.std.specs.Prelude.{◌≡◌, [], ◌∷◌, MatchOption};
ghost use Rattle.std.specs.List.{after_first, before_first};
ghost use Rattle.mp_text.specs.Fields.{fields_of};

use memchr::memchr;
use std::marker::Model;

const SEPARATOR: u8 = b'|';

/// The words of a text, cut at each `|`, given one by one. Contracts see the words that are left.
#[derive(Drop)]
pub struct Words<'a> {
    rest: &'a [u8],
    is_over: bool,
}

impl<'a> Model for Words<'a> {
    ghost use Rattle.std.specs.Prelude.{ℕ, List, [], cond};
    ghost use Rattle.mp_text.specs.Fields.{fields_of};

    ghost Value = { List (List ℕ) };

    ghost view = { λ w. cond w.is_over [] (fields_of w.rest.now) };
}

impl<'a> Words<'a> {
    /// The words of this text: one at least, since the empty text is one empty word.
    pub fn over(text: &'a [u8]) -> Words<'a>
        ensures { result ≡ fields_of text.now }
    {
        Words {
            rest: text,
            is_over: false,
        }
    }

    /// The next word, if one is left.
    pub fn word(&mut self) -> Option<&'a [u8]>
        ensures { MatchOption result ((self.old ≡ []) × (self.new ≡ [])) (λ word. self.old ≡ word.now ∷ self.new) }
    {
        if self.is_over {
            return None;
        }
        match memchr(SEPARATOR, self.rest) {
            Some(end) => {
                let word = &self.rest[..end];
                self.rest = &self.rest[end + 1..];
                Some(word)
            }
            None => {
                self.is_over = true;
                Some(self.rest)
            }
        }
    }

    /// The text of the words that are left, if any is.
    pub fn rest(&self) -> Option<&'a [u8]>
        ensures { MatchOption result (self.now ≡ []) (λ text. fields_of text.now ≡ self.now) }
    {
        if self.is_over {
            return None;
        }
        Some(self.rest)
    }
}
