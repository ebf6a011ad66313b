//! Laws of what the program prints, for a reader.
#![tactic(auto)]

mod outputs;
mod runs;

pub use outputs::{one_output_laws, printed_tree_laws};
pub use runs::one_run_law;
