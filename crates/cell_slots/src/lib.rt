//! The plain form of `slots`: each slot is a cell of three words, and each probe and each store is one step of it.
#![tactic(auto)]

mod cell;
mod rule;
mod table;
mod views;

pub use rule::{Cell, Hear, InOneOrder, Probed, Put, Token, Told};
pub use table::{CellSeat, CellSlots, MOST_CALLERS, MOST_SLOTS};
pub use views::View;
