//! What a solve answers.
use moves::Move;

/// The greatest limit of a solve, in plies.
pub const MOST_LIMIT: u8 = 63;

/// The answer for a position, a goal and a limit in plies. The attacker is the side to move.
#[derive(Clone, Copy, PartialEq, Eq, Debug)]
pub enum Answer {
    /// The attacker forces the goal in so many plies and no fewer, and this is the least first move that keeps them.
    Mate { plies: u8, first: Move },
    /// The attacker forces the goal within no number of plies up to this limit.
    NoneWithin(u8),
}
