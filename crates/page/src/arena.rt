//! The arena of a call.
use bumpalo::Bump;
use lent_memory::{Lent, Region};

/// What the arena's own words take of the memory, rounded up.
const OWN: usize = 8192;

/// An arena that has all of the memory. `None` where that is too small for any.
pub(crate) fn arena_over(memory: Region) -> Option<Bump<Lent>> {
    let lent = Lent::new(memory);
    let most = lent.size().saturating_sub(OWN);
    Bump::try_with_capacity(lent, most).ok()
}
