//! What a composer publishes of a problem: its keys with their threats and variations, its set play and its tries.
#![tactic(auto)]

mod changing;
mod continuing;
mod data;
mod extras;
mod first_try;
mod key_play;
mod lines;
mod passing;
mod refuting;
mod replying;
mod solution;
mod solving;
mod threatening;
mod threats;
mod trying;
mod variation;
mod varying;

pub use changing::{SetMove, is_changed, set_move_of};
pub use continuing::continuations_of;
pub use extras::Extras;
pub use first_try::Try;
pub use key_play::KeyPlay;
pub use passing::passed;
pub use refuting::refutations_of;
pub use solution::Solution;
pub use solving::solution_of;
pub use threatening::threats_of;
pub use threats::Threats;
pub use trying::tries_of;
pub use variation::Variation;
