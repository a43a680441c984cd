//! Layer: the queries, and the answer on one thread.
//!
//! Values, events, records and groups: what a dataflow carries; what a query is; and the definitions from events to the
//! bytes of the answer.
#![tactic(auto)]

mod fields;
mod group;
mod laws;
mod naming;
mod posts;
mod query;
mod record;
mod rules;
mod text;
mod value;

pub use fields::{Field, FieldList, Fields};
pub use group::Group;
pub use laws::tables_keep_laws;
pub use mp_names::{Control, First, Name, Shape, Tag, Time};
pub use naming::Naming;
pub use posts::PostList;
pub use query::Query;
pub use record::{Event, Output, Place, Rec};
pub use rules::{Rule, RuleList};
pub use text::Text;
pub use value::Value;
