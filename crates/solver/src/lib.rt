//! A solver that lives: question after question over one table, by the caller's own thread alone, and stopped from another; and single
//! questions by that thread, which nothing stops.
#![tactic(auto)]

mod alone;
mod crew;
mod listening;
mod making;
mod place_word;
mod solver;
mod solving;

pub use alone::{keys_alone, solve_alone, solve_board_alone};
pub use crew::Alone;
pub use listening::{Listener, Place, StopSource};
pub use solver::Solver;
