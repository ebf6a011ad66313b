//! One thread's way through a root's moves: solves, keys and winning trees, by whoever decides whether a move wins; and trees that threads prepare.
#![tactic(auto)]

mod best;
mod building;
mod crew;
mod decider;
mod fault;
mod first;
mod gate;
mod halt;
mod keys;
mod preparing;
mod searcher;
mod solving;
mod table;

pub use building::{build_tree, tree_by};
pub use crew::Crew;
pub use decider::Decider;
pub use fault::SolveFault;
pub use first::{tree_of_alone, tree_of_first};
pub use gate::{Gate, NoGate, no_gate_keeps_on};
pub use halt::Halt;
pub use keys::{keys_of, plies_of};
pub use preparing::build_tree_over;
pub use progress::Ended;
pub use searcher::Searcher;
pub use solving::{least_win, solve_by};
pub use table::{MOST_WORKERS, Table, make_table};
