//! Layer: a job.
//!
//! The settings that a configuration file says: first owners of bins, values of the query's rules, and control records.
//!
//! A line `M` says one control record, as of Megaphone's control stream: from a time on, a worker owns a bin of a
//! stage. A line `all`, `fluid` or `batch` says a plan: a record for each bin of a stage. Where the first line that
//! isn't blank is `V|2`, a line `first` says who owns a bin before that, a line `rule` sets a constant of the query, and a line
//! `drain` says a record for each bin of a stage that a worker owns, by the lines before it, which goes to another one.
//! Fields are checked from left to right, and the first check that fails is the reason why a file is refused. The lines,
//! their limits and the order of the checks are this project's profile.
#![tactic(auto)]

mod drains;
mod firsts;
mod kinds;
mod laws;
mod line;
mod list_owners;
mod reading;
mod refused;
mod rule_lines;
mod said;
mod setting_kinds;
mod settings;
mod values;

pub use laws::version_one_is_as_before;
pub use mp_job::{Control, Shape};
pub use mp_model::{Rule, RuleList};
pub use mp_names::First;
pub use reading::read_settings;
pub use refused::{ControlReason, ControlRefused};
pub use settings::Settings;
pub use values::{MOST_RULES, ValueList};
