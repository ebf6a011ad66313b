//! What stands in JSON as a value, written by the kit's writer.
#![tactic(auto)]

mod datum;
mod object;

pub use datum::{Datum, Outcome};
pub use object::{begin_problem, into_line, member};
