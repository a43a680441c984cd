//! Layer: the command.
//!
//! The words of megaphone's command line: what they ask for, or that they are no command.
//!
//! clap reads the words, with each value as text: the name of the program, `run`, `replay`, `check`, `make`, `demo`
//! or `audit`, and the options of that command, each at most once. The query, the numbers, their ranges and the
//! names are checked after it.
#![tactic(auto)]

mod command;
mod options;
mod refused;
mod values;
mod words;

pub use options::{
    AuditOptions, CheckOptions, Command, DemoOptions, MakeOptions, QueryName, QueryOption,
    RunOptions, Schedule, Span,
};
pub use refused::WordsRefused;
pub use words::parse;
