//! With what a run searches, and what is shown of it within its limits: who searches, the table, the sign of life beside a search, first moves
//! by name.
#![tactic(auto)]

mod context;
mod limits;
mod naming;
mod searching;
mod shown;

pub use context::{Context, beside, context_of};
pub use limits::{Search, search_of};
pub use naming::named_job;
pub use searching::{opened, table_within};
pub use shown::none_line;
