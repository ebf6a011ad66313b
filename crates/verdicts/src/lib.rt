//! What a certificate proves, as it is printed; and the program that checks certificates, over any words and streams.
#![tactic(auto)]

mod beginning;
mod certified;
mod program;
mod running;

pub use beginning::{Input, Keeping};
pub use certified::verified;
pub use program::run_program;
pub use running::{proof_refused, run};
