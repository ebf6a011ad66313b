//! The progress line of a batch or of a certificate: how many lines are done.
#![tactic(auto)]

mod count;
mod tally;

pub use count::{Count, Lines};
pub use tally::Tally;
