//! What a composer's program writes: the solution of a problem, an answer with its certificate, and a board; and that program, over any words
//! and a writer.
#![tactic(auto)]

mod certificate;
mod diagram;
mod drawing;
mod first_move;
mod problem;
mod program;
mod running;
mod searched;
mod whole_form;

pub use program::run_program;
pub use running::run;
