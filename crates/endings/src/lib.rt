//! How a run of a program ends, whatever it was asked: what is written last, what standard error is told, and the status.
#![tactic(auto)]

mod ending;
mod over;
mod telling;
mod words;

pub use ending::{
    ANSWERED, REFUSED_WORDS, fail_to_read, fail_to_write, finish, give_up_for_memory,
    has_no_answer, refuse,
};
pub use over::tell_if_over;
pub use telling::{refuse_and_tell, refuse_move};
pub use words::{end_wordless, explain_if_refused};
