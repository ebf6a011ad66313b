//! An input line by line.
#![tactic(auto)]

mod lines;
mod mark;
mod within;

pub use lines::{Held, Next, Taken, Unread};
