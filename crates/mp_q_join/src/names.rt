//! Names and flags in the texts of cells.
ghost use Rattle.std.specs.Prelude.{◌≡◌, ◌++◌, ◌∷◌, OnOk};
ghost use Rattle.mp_q_join.specs.Names.{are_plain, is_yes, name_is_legal};

use mp_model::Text;
use mp_names::limits::MAX_NAME;
use std::alloc::AllocError;

/// Whether a name is within the limits of a name in an event, and holds no bar and no line feed.
pub fn is_legal(name: &Text) -> bool
    ensures { result ≡ name_is_legal name.now }
{
    let bytes = name.as_bytes();
    bytes.len() > 0 && bytes.len() <= MAX_NAME && are_plain(bytes)
}

/// Whether no byte is a bar or a line feed.
fn are_plain(bytes: &[u8]) -> bool
    ensures { result ≡ are_plain bytes.now }
{
    bytes.iter().all(|byte| *byte != b'|' && *byte != b'\n')
}

/// Appends a bar and a name. `AllocError`: no memory, and a part of it may be appended.
pub fn put(out: &mut Vec<u8>, name: &Text) -> Result<(), AllocError>
    ensures { OnOk result (out.new.items ≡ out.old.items ++ 124 ∷ name.now) }
{
    out.push(b'|')?;
    out.extend_from_slice(name.as_bytes())
}

/// Whether a word says yes.
pub fn is_yes(word: &[u8]) -> bool
    ensures { result ≡ is_yes word.now }
{
    word == b"1".as_slice()
}
