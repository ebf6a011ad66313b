//! A sign of life: its text, which job of a search it names, and who watches the search for it.
#![tactic(auto)]

mod ended;
mod place;
mod sign;
mod watch;

pub use ended::Ended;
pub use place::{WINS, first_named};
pub use sign::{CLEARED, Sign, Work, drawn, left_behind};
pub use watch::{Course, Setting, Watch, shown};
