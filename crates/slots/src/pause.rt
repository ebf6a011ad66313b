//! What a call does between its atomic steps.

/// What a call does between its atomic steps. A test's pause may use another seat of the same table.
pub trait Pause {
    /// So many steps of the call are done, and at least one is left.
    fn at(&mut self, done: u8);
}

// It does nothing.
#[derive(Drop)]
pub(crate) struct NoPause;

impl Pause for NoPause {
    fn at(&mut self, _done: u8) {}
}
