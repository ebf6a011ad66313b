//! Winning trees: the type, their text both ways, and their checker.
#![tactic(auto)]

mod fault;
mod flaws;
mod read;
mod tree;
mod wins;
mod written;

pub use fault::{NoMemory, TreeFault};
pub use flaws::{Flaw, Wrong};
pub use read::read_tree;
pub use tree::{End, Tree};
pub use wins::{check, find_flaw};
pub use written::tree_text;
