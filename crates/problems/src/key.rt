//! A key of a problem: a first move that forces the goal.
use moves::Move;

/// A first move that forces the goal, and the fewest plies that it takes, itself counted.
#[derive(Clone, Copy, PartialEq, Eq, Debug)]
pub struct Key {
    pub first: Move,
    pub plies: u8,
}
