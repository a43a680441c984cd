//! Names and other short texts, of any bytes.
ghost use Rattle.std.specs.Prelude.{◌≡◌, ◌≤◌, IfOk, length};
ghost use Rattle.mp_model.specs.Texts.{bytes_stored};

use mp_short::ShortList;
use std::alloc::{AllocError, Global};
use std::marker::Model;
use std::sync::Arc;

/// Bytes of any value, such as the name of a person. Contracts see the list of the bytes.
// A value holds up to three of these and is moved often, so a text is one pointer, and its clones share the bytes.
pub struct Text {
    bytes: Arc<Stored>,
}

// Nearly all texts are short, and those take one piece of memory.
#[derive(Drop)]
enum Stored {
    Short(ShortList<u8, SHORT>),
    Long(Vec<u8>),
}

const SHORT: usize = 16;

// By hand, so that crates above call it and don't write out the drop of each field.
impl Drop for Text {
    fn drop(self) {
        let Text { bytes: _ } = self;
    }
}

impl Model for Text {
    ghost use Rattle.std.specs.Prelude.{ℕ, List};
    ghost use Rattle.std.specs.Arc.{arc_value};
    ghost use Rattle.mp_model.specs.Texts.{bytes_stored};

    ghost Value = { List ℕ };

    ghost view = { λ t. bytes_stored (arc_value t.bytes) };
}

impl Text {
    /// A text of these bytes. `AllocError`: no memory.
    pub fn new(alloc: Global, bytes: &[u8]) -> Result<Text, AllocError>
        ensures { IfOk result (λ t. t ≡ bytes.now) }
    {
        let stored = if bytes.len() <= SHORT {
            Stored::Short(short(bytes))
        } else {
            Stored::Long(Vec::from_slice(alloc, bytes)?)
        };
        Ok(Text {
            bytes: Arc::new(alloc, stored)?,
        })
    }

    /// Its bytes.
    pub fn as_bytes(&self) -> &[u8]
        ensures { result.now ≡ self.now }
    {
        match &*self.bytes {
            Stored::Short(bytes) => bytes.as_slice(),
            Stored::Long(bytes) => bytes.as_slice(),
        }
    }
}

// A few bytes, in place.
fn short(bytes: &[u8]) -> ShortList<u8, SHORT>
    requires { length bytes.now ≤ 16 }
    ensures { result ≡ bytes.now }
{
    let mut list = ShortList::new(0);
    for byte in bytes {
        list.push(*byte);
    }
    list
}

impl Clone for Text {
    ghost is_clone = { λ text copy. copy ≡ text };

    fn clone(&self) -> Result<Text, AllocError> {
        Ok(Text {
            bytes: self.bytes.clone()?,
        })
    }
}
