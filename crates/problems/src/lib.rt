//! What is asked of a position and what answers it: problems with their first moves, questions, answers and keys. Nothing is searched here.
#![tactic(auto)]

mod answer;
mod key;
mod problem;
mod question;
mod root;

pub use answer::{Answer, MOST_LIMIT};
pub use key::Key;
pub use problem::{Problem, is_limit};
pub use question::Question;
pub use root::Root;
