//! A key with what follows it.

use crate::threats::Threats;
use crate::variation::Variation;
use moves::Move;
use std::alloc::{Allocator, Global};

/// A key, what it threatens, and a variation for each lawful reply.
#[derive(Drop)]
pub struct KeyPlay<A: Allocator = Global> {
    pub first: Move,
    pub threats: Threats<A>,
    pub variations: Vec<Variation<A>, A>,
}
