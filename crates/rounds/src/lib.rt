//! The root moves of a solve as jobs, which workers steal from one another, round by round; and these workers as a crew.
#![tactic(auto)]

mod gated;
mod job_state;
mod keys;
mod round;
mod share;
mod shared;
mod solving;
mod task;
mod telling;
mod watched;
mod workers;

pub use gated::kept_seats_go_on;
pub use keys::keys_over;
pub use searcher::{MOST_WORKERS, SolveFault, make_table};
pub use solving::{solve, solve_over};
pub use task::Task;
pub use watched::{Watched, watched_keeps_on};
pub use workers::Workers;
