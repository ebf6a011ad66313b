//! A variation.

use moves::Move;
use std::alloc::{Allocator, Global};

/// A reply of the defender, the fewest plies behind it, all continuations there, and the best line, which begins with the first of them.
#[derive(Drop)]
pub struct Variation<A: Allocator = Global> {
    pub reply: Move,
    pub plies: u8,
    pub moves: Vec<Move, A>,
    pub line: Vec<Move, A>,
}
