//! Layer: text, files and collections.
//!
//! Lines, fields and numbers of a text file.
//!
//! A text is cut into lines at each line feed, and a line into fields at each `|`. Numbers are
//! decimal digits without a sign. Nothing here allocates but [`put_number`].
#![tactic(auto)]

mod cutting;
mod numbers;
mod splitting;

pub use cutting::{Line, Lines};
pub use numbers::{BadNumber, number, put_number};
pub use splitting::{FIELDS_HELD, FieldList, fields};
