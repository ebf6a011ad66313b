//! What a diagram shows.
use board::{Position, Side};
use moves::Move;

/// What a diagram shows: a position, as one side sees it, and perhaps a move.
#[derive(Drop)]
pub struct Diagram<'a> {
    pub position: &'a Position,
    /// The side that sits below the board.
    pub below: Side,
    /// The move that is drawn as an arrow.
    pub arrow: Option<Move>,
}
