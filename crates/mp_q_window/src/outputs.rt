//! The outputs of a group that gives one or none.
ghost use Rattle.std.specs.Prelude.{◌≡◌, IfOk, option_to_list};

use mp_model::Value;
use std::alloc::{AllocError, Global};

/// The output as a list, which has no room for another one. `AllocError`: no memory.
pub fn list_of(alloc: Global, output: Option<Value>) -> Result<Vec<Value>, AllocError>
    ensures { IfOk result (λ v. v.items ≡ option_to_list output) }
{
    match output {
        Some(value) => Ok(Vec::from_array(alloc, [value])?),
        None => Ok(Vec::new(alloc)),
    }
}
