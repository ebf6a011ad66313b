//! The library of the program `minimate`: it answers a command line over any reader and writer, and returns the exit status.
#![tactic(auto)]

mod over;
mod running;
mod watching;

pub use command_line::{Action, Line};
pub use devices::{Sink, Source};
pub use refusals::Refusal;
pub use running::{run, run_line, run_program};
