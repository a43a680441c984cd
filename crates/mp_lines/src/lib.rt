//! Layer: text, files and collections.
//!
//! Reading a file line by line: the items that its lines say, or its first bad line.
//!
//! What a line says, and which checks it has to pass, is told by a [`LineReader`]. Blank lines are counted and say
//! nothing. The first check that the first bad line fails is the reason why a file is refused.
#![tactic(auto)]

mod checks;
mod fields;
mod limits;
mod reading;
mod refused;

pub use checks::{FieldCheck, MOST_FIELDS, read_numbers};
pub use fields::{BadField, FieldLimit};
pub use limits::NumberLimit;
pub use reading::{LineReader, read_lines};
pub use refused::{FileRefused, LineRefused};
