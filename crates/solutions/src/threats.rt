//! What the attacker threatens after a key.

use moves::Move;
use std::alloc::{Allocator, Global};

/// What the attacker threatens after a key: what he would play if the defender passed.
#[derive(Drop)]
pub enum Threats<A: Allocator = Global> {
    /// The key ends the game.
    End,
    /// The key gives check, so that the defender can't pass.
    Check,
    /// The defender could meet all if he needn't move.
    Zugzwang,
    /// So many plies after a pass, and all continuations there.
    Moves { plies: u8, moves: Vec<Move, A> },
}
