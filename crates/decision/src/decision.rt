//! What a decision answers.
use slots::Probe;

/// The answer for a position, an attacker, a goal and a number of plies.
#[derive(Clone, Copy, PartialEq, Eq, Debug)]
pub struct Decision {
    /// Whether the attacker forces the goal within so many plies.
    pub yes: bool,
    /// The number of positions whose lawful moves were made, up to the greatest `u64`, and 0 where the table's reply decided.
    /// In the last three plies it also counts each position that is decided without a list of its moves: by sets of squares, where
    /// the attacker may reach the goal by one move, or by a remembered reply that the defender tries first. It doesn't count
    /// a position with no ply left, nor one that the table decides.
    pub expanded: u64,
    /// The table's reply for the given position.
    pub first: Probe,
}
