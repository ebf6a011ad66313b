//! The name of a move in algebraic notation, as `Qbxc4+`.
#![tactic(auto)]

mod ending;
mod name;
mod naming;
mod origin;
mod symbols;

pub use name::Name;
pub use naming::Notation;
pub use symbols::Symbols;
