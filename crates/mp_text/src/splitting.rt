//! Splitting a line into fields.
ghost use Rattle.std.specs.Prelude.{◌≡◌, ◌↔◌, ◌<◌, [], ◌∷◌, ◌++◌, length, take, slice_get, IsSome, IfSome};
ghost use Rattle.mp_text.specs.Fields.{fields_of, ends_from};

use mp_short::ShortList;
use std::marker::Model;

/// How many fields of a line a [`FieldList`] holds: those from the first on.
pub const FIELDS_HELD: usize = 8;

const SEPARATOR: u8 = b'|';

/// The fields of a line: how many there are, and the bytes of the first eight. Contracts see it as
/// the list of all of them.
#[derive(Drop)]
pub struct FieldList<'a> {
    line: &'a [u8],
    count: usize,
    ends: ShortList<usize, FIELDS_HELD>,
}

impl<'a> Model for FieldList<'a> {
    ghost use Rattle.std.specs.Prelude.{◌≡◌, ℕ, List, length, take};
    ghost use Rattle.mp_text.specs.declared.splitting.TheConstants.{FIELDS_HELD};
    ghost use Rattle.mp_text.specs.Fields.{fields_of, ends_from};

    ghost Value = { List (List ℕ) };

    ghost view = { λ f. fields_of f.line.now };

    ghost invariant = { λ f. (f.count ≡ length (fields_of f.line.now))
        × (f.ends ≡ take FIELDS_HELD (ends_from 0 (fields_of f.line.now))) };
}

/// The fields of `line`, cut at each `|`: one at least, since the empty line is one empty field.
pub fn fields<'a>(line: &'a [u8]) -> FieldList<'a>
    ensures fields { result ≡ fields_of line.now }
    ensures some { 0 < length result }
{
    let mut separators = 0usize;
    let mut ends = ShortList::new(0);
    for (place, byte) in line.iter().enumerate() {
        if *byte == SEPARATOR {
            hold_end(&mut ends, place);
            separators += 1;
        }
    }
    hold_end(&mut ends, line.len());
    FieldList {
        line,
        count: separators + 1,
        ends,
    }
}

/// Adds where a field ends, if there is room for it.
fn hold_end(ends: &mut ShortList<usize, FIELDS_HELD>, end: usize)
    ensures { ends.new ≡ take FIELDS_HELD (ends.old ++ end ∷ []) }
{
    if !ends.is_full() {
        ends.push(end);
    }
}

impl<'a> FieldList<'a> {
    /// How many fields the line has, those past the eighth among them.
    pub fn count(&self) -> usize
        ensures { result ≡ length self.now }
    {
        self.count
    }

    /// The field at `index`, from 0: `None` where the line has no such field, and past the eighth.
    pub fn get(&self, index: usize) -> Option<&'a [u8]>
        ensures there { IsSome result ↔ ((index < FIELDS_HELD) × (index < length self.now)) }
        ensures bytes { IfSome result (λ field. slice_get self.now index ≡ Some field.now) }
    {
        if index < self.ends.len() {
            Some(field_at(self.line, self.ends.as_slice(), index))
        } else {
            None
        }
    }
}

/// The field at `index` of a line whose first fields have these ends.
fn field_at<'a>(line: &'a [u8], ends: &[usize], index: usize) -> &'a [u8]
    requires ends { ends.now ≡ take FIELDS_HELD (ends_from 0 (fields_of line.now)) }
    requires held { index < length ends.now }
    ensures { slice_get (fields_of line.now) index ≡ Some result.now }
{
    let start = if index == 0 { 0 } else { ends[index - 1] + 1 };
    &line[start..ends[index]]
}
