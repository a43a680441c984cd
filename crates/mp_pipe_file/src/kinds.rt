//! The words of lines.
ghost use Rattle.std.specs.Prelude.{◌≡◌};
ghost use Rattle.mp_lines.specs.Checks.{field_at};
ghost use Rattle.mp_pipe_file.specs.Words.{event_kind_of, kind_of, test_of};

use mp_pipeline::{EventKind, Form, Test};
use mp_text::FieldList;

/// What a line says.
#[derive(Clone, Copy)]
pub enum LineKind {
    /// `on`, the kind of the events that go in.
    On,
    /// `pass`, `count`, `sum` or `window`, a stage of this form.
    Stage(Form),
}

impl LineKind {
    /// The kind that a line says in its first field, if it says one.
    pub fn of(fields: &FieldList) -> Option<LineKind>
        ensures { result ≡ kind_of (field_at fields.now 0) }
    {
        let first = fields.get(0)?;
        if first == b"on".as_slice() {
            Some(LineKind::On)
        } else if first == b"pass".as_slice() {
            Some(LineKind::Stage(Form::Pass))
        } else if first == b"count".as_slice() {
            Some(LineKind::Stage(Form::Count))
        } else if first == b"sum".as_slice() {
            Some(LineKind::Stage(Form::Sum))
        } else if first == b"window".as_slice() {
            Some(LineKind::Stage(Form::Window))
        } else {
            None
        }
    }
}

/// The kind of events that a field says, if it says one.
pub fn event_kind_of(field: &[u8]) -> Option<EventKind>
    ensures { result ≡ event_kind_of field.now }
{
    if field == b"P".as_slice() {
        Some(EventKind::Person)
    } else if field == b"A".as_slice() {
        Some(EventKind::Auction)
    } else if field == b"B".as_slice() {
        Some(EventKind::Bid)
    } else {
        None
    }
}

/// The test that a field says, if it says one.
pub fn test_of(field: &[u8]) -> Option<Test>
    ensures { result ≡ test_of field.now }
{
    if field == b"any".as_slice() {
        Some(Test::Any)
    } else if field == b"lt".as_slice() {
        Some(Test::Below)
    } else if field == b"eq".as_slice() {
        Some(Test::Equal)
    } else if field == b"ge".as_slice() {
        Some(Test::AtLeast)
    } else {
        None
    }
}
