//! The words of the program's command line, and the order that they mean.
#![tactic(auto)]

mod help;
mod line;
mod making;
mod reading;

pub use line::{
    Action, BatchOptions, Drawing, Limits, Line, NamedMove, Order, SolutionOptions, Subject,
};
pub use reading::{LineFault, asks_progress, matches, read_order};
