//! Claims.
use moves::Board;

/// What a claim of a certificate is about: a position, and a number of plies.
#[derive(Drop)]
pub struct Claim {
    pub position: Board,
    pub plies: u8,
}
