//! The jobs of one round of a search, as threads share them, without locks: the least job known to win, and the deques from which threads
//! steal. Nothing of chess is known here.
#![tactic(auto)]

mod deques;
mod fault;
mod job_board;
mod rule;
mod steps;
mod views;
mod wins;

pub use deques::{Count, Jobs, Owner, Thief, deal, next_job};
pub use fault::MakeFault;
pub use job_board::{JobSeat, Least, MOST_CALLERS, MOST_JOBS};
pub use rule::Lowest;
pub use views::{JobView, Terms};
pub use wins::Wins;
