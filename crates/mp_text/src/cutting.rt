//! Cutting a text into lines.
ghost use Rattle.std.specs.Prelude.{◌≡◌};
ghost use Rattle.std.specs.List.{before_first, after_first};
ghost use Rattle.std.specs.Str.Lines.{strip_carriage_return};
ghost use Rattle.mp_text.specs.Lines.{is_line_feed, lines_of};

use memchr::memchr;
use std::marker::Model;

const LINE_FEED: u8 = b'\n';

const CARRIAGE_RETURN: u8 = b'\r';

/// A line of a text, without its line feed and without the one carriage return that may end it.
#[derive(Clone, Copy)]
pub struct Line<'a> {
    /// The line's number in its text, from 1.
    pub number: u64,
    /// The line's bytes, of any value but the line feed's.
    pub bytes: &'a [u8],
}

/// The lines of a text, given one by one. Contracts see the lines that are left and the number of
/// the next.
#[derive(Drop)]
pub struct Lines<'a> {
    rest: &'a [u8],
    given: u64,
}

impl<'a> Model for Lines<'a> {
    ghost use Rattle.std.specs.Prelude.{◌+◌, ◌<◌, ◌^◌, length};
    ghost use Rattle.mp_text.specs.Lines.{LinesLeft, lines_of};

    ghost Value = { LinesLeft };

    ghost view = { λ l. record { number = l.given + 1; lines = lines_of l.rest.now } };

    ghost invariant = { λ l. l.given + length l.rest.now < 2 ^ 64 };
}

impl<'a> Lines<'a> {
    /// The lines of `text`, from its first.
    pub fn over(text: &'a [u8]) -> Lines<'a>
        ensures first { result.number ≡ 1 }
        ensures lines { result.lines ≡ lines_of text.now }
    {
        Lines {
            rest: text,
            given: 0,
        }
    }
}

impl<'a> Iterator for Lines<'a> {
    ghost use Rattle.std.specs.Prelude.{length};
    ghost use Rattle.std.specs.Iterator.{at_most};
    ghost use Rattle.mp_text.specs.NextLine.{GivesLine};

    type Item = Line<'a>;

    ghost next_gives = { GivesLine };

    ghost remaining = { λ left. at_most (length left.lines) };

    /// The next line, or `None` at the end of the text.
    fn next(&mut self) -> Option<Line<'a>> {
        if self.rest.is_empty() {
            return None;
        }
        let (part, rest) = first_part(self.rest);
        self.rest = rest;
        self.given += 1;
        Some(Line {
            number: self.given,
            bytes: without_carriage_return(part),
        })
    }
}

/// What stands before the first line feed and what follows it; all and nothing where there is none.
fn first_part<'a>(text: &'a [u8]) -> (&'a [u8], &'a [u8])
    ensures part { result.0.now ≡ before_first is_line_feed text.now }
    ensures rest { result.1.now ≡ after_first is_line_feed text.now }
{
    match memchr(LINE_FEED, text) {
        Some(end) => (&text[..end], &text[end + 1..]),
        None => text.split_at(text.len()),
    }
}

/// The part without the one carriage return that may end it.
fn without_carriage_return<'a>(part: &'a [u8]) -> &'a [u8]
    ensures { result.now ≡ strip_carriage_return part.now }
{
    match part {
        [line @ .., CARRIAGE_RETURN] => line,
        _ => part,
    }
}
