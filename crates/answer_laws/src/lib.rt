//! Laws of what is forced, of answers, of keys, of winning trees and of the table's entries, for a reader.
#![tactic(auto)]

mod answers;
mod best;
mod entries;
mod forced;
mod plans;
mod turned;
mod turning;

pub use answers::{answers_of_keys, one_answer_laws};
pub use best::one_best_tree;
pub use entries::{key_laws, packing_laws, preference_laws};
pub use forced::forced_mate_laws;
pub use plans::{best_plan_laws, winning_plan_laws};
pub use turned::{mirrored_answer_laws, turned_answer_laws};
pub use turning::{mirror_laws, turned_board_laws, turned_play_laws};
