//! The checker of certificates, which trusts no solver: it reads claims line by line, and looks three plies ahead.
#![tactic(auto)]

mod checker;
mod claims;
mod fault;
mod first_line;
mod kept;
mod leaf;
mod listed;
mod no_claims;
mod part;
mod steps;
mod whole;
mod words;
mod yes_claims;

pub use checker::{Checker, MOST_LINE};
pub use claims::Claims;
pub use fault::Fault;
pub use leaf::LEAF;
pub use steps::place_of;
pub use whole::{verify, verify_input};
pub use words::Word;
