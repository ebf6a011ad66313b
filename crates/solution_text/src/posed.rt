//! A problem whose set play is told.

use moves::Board;

/// A problem's board, and the plies that its keys take.
#[derive(Drop)]
pub(crate) struct Posed {
    pub(crate) board: Board,
    pub(crate) plies: u8,
}
