//! A try.

use moves::Move;

/// A first move that one reply alone refutes, and that reply.
#[derive(Clone, Copy, PartialEq, Eq, Debug)]
pub struct Try {
    pub first: Move,
    pub refutation: Move,
}
