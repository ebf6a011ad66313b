//! A batch over any reader, writer and crew: the replies to the lines of an input, over one table; and the program of batches.
#![tactic(auto)]

mod ahead;
mod batch;
mod program;
mod running;

pub use program::{run, run_program};
pub use running::run_batch;
