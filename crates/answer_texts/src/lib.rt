//! The texts of answers: of a solve, of keys, of moves and of a tree that was checked.
#![tactic(auto)]

mod answers;

pub use answers::{answer_text, checked_text, keys_text, moves_text, none_text};
