//! The squares of a board as cells of one word: sets of them, and tables of what a unit sees from each.
#![tactic(auto)]

mod cell_sets;
mod lines;
mod mailbox;
mod tables;

pub use cell_sets::{common, except, has, lowest, single, with_cell, without};
pub use lines::{down_to_highest, slanted_lines, straight_lines, up_to_lowest};
pub use mailbox::{cell_of, cells, square_in};
pub use tables::{WAYS, Way, king_leaps, knight_leaps, pawn_captures, ray};
