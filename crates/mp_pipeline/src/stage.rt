//! The line of a stage.
ghost use Rattle.std.specs.Prelude.{◌≡◌, ◌≤◌};
ghost use Rattle.mp_names.specs.Limits.{last_time};
ghost use Rattle.mp_pipeline.specs.Stages.{IsWidth, key_by, meets, posts_by, value_by};

use crate::numbers::number_in;
use mp_model::{PostList, Rec, Time, Value};

/// What a stage makes of the records of a key.
#[derive(Clone, Copy)]
pub enum Form {
    /// The value of each.
    Pass,
    /// How many there were.
    Count,
    /// The sum of their values.
    Sum,
    /// The sum of the values in a window of time, when it ends.
    Window,
}

/// How a field is compared with a number.
#[derive(Clone, Copy)]
pub enum Test {
    /// Not at all.
    Any,
    /// It is below the number.
    Below,
    /// It is the number.
    Equal,
    /// It is the number or above it.
    AtLeast,
}

/// A stage, as its line says it. Fields are numbered from 0, the time; those of a later stage are time, key and value.
#[derive(Clone, Copy)]
pub struct StageLine {
    /// What it makes of the records of a key.
    pub form: Form,
    /// The field that is a record's key.
    pub key: u64,
    /// The field that is a record's value.
    pub value: u64,
    /// The field that is compared.
    pub field: u64,
    /// How it is compared.
    pub test: Test,
    /// With which number.
    pub number: u64,
    /// How long a window is, 1 to 43,200 in units of the event file; 1 where there are no windows.
    pub width: u64,
}

impl StageLine {
    /// The key of a record of this time, if its field meets the test.
    pub(crate) fn key_of(&self, time: Time, value: &Value) -> Option<u64>
        ensures { result ≡ key_by self.now time value.now }
    {
        if self.meets(number_in(time, value, self.field)) {
            Some(number_in(time, value, self.key))
        } else {
            None
        }
    }

    /// The value of a record.
    pub(crate) fn value_of(&self, rec: &Rec) -> u64
        ensures { result ≡ value_by self.now rec.now }
    {
        number_in(rec.time, &rec.value, self.value)
    }

    /// The end of the window that a record of stage 0 is in, where there are windows. A record's time is at most 2^47 + 43,200.
    pub(crate) fn posts(&self, rec: &Rec) -> PostList
        requires width { IsWidth self.now.width }
        requires in_time { rec.now.time ≤ last_time }
        ensures { result ≡ posts_by self.now rec.now }
    {
        let mut posts = PostList::new();
        if let Form::Window = self.form {
            posts.push((rec.time / self.width + 1) * self.width);
        }
        posts
    }

    // Whether a number meets the test.
    fn meets(&self, number: u64) -> bool
        ensures { result ≡ meets self.now number }
    {
        match self.test {
            Test::Any => true,
            Test::Below => number < self.number,
            Test::Equal => number == self.number,
            Test::AtLeast => number >= self.number,
        }
    }
}
