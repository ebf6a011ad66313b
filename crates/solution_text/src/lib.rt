//! The text of a solution, as composers write it.
#![tactic(auto)]

mod beginning;
mod broken;
mod data;
mod entries;
mod first_move;
mod keys;
mod lines;
mod posed;
mod sequels;
mod teller;
mod tries;
mod variations;
mod virtual_play;
mod whole;
mod whole_lines;

pub use beginning::{Beginning, SolutionStyle, played_key, whole_beginning};
pub use data::{none_data, solution_data};
pub use first_move::first_move_solution;
pub use lines::numbered_moves;
pub use whole::solution_text;
pub use whole_lines::whole_solution;
