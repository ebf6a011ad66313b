//! What callers ask of a slot, and what they are answered.

/// The answer to a probe.
#[derive(Debug, Clone, Copy, PartialEq, Eq)]
pub enum Probe {
    /// A whole entry with the key stands there.
    Hit([u64; 3]),
    /// Nothing was stored there yet.
    Vacant,
    /// An entry with another key stands there.
    Other,
    /// A store was under way, or came between.
    Busy,
}

/// The answer to a store.
#[derive(Debug, Clone, Copy, PartialEq, Eq)]
pub enum Store {
    /// The words stand there now.
    Stored,
    /// These words stand there, and are preferred.
    Kept([u64; 3]),
    /// Another store was under way, or came first.
    Busy,
    /// The gate can't rise any more.
    Worn,
}

/// A request and its reply.
#[derive(Clone, Copy)]
pub enum Act {
    Asked([u64; 3], Probe),
    Offered([u64; 3], Store),
}

/// An act at the slot, of the seat with this number.
#[derive(Clone, Copy)]
pub struct Call {
    pub slot: u64,
    pub by: u64,
    pub act: Act,
}
