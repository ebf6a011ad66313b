//! The solution of a problem.

use crate::first_try::Try;
use crate::key_play::KeyPlay;
use crate::variation::Variation;
use std::alloc::{Allocator, Global};

/// The fewest plies, the keys, and the set play and the tries where they were asked for. An empty set play says that there is none.
#[derive(Drop)]
pub struct Solution<A: Allocator = Global> {
    pub plies: u8,
    pub keys: Vec<KeyPlay<A>, A>,
    pub set_play: Option<Vec<Variation<A>, A>>,
    pub tries: Option<Vec<Try, A>>,
}
