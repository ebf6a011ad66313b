//! What a seat knows. No value of these types is made.
use crate::calls::Call;
use std::collections::LinkedList;

/// Two numbers that the gate of a slot had.
pub struct Note {
    pub low: u64,
    pub high: u64,
}

/// The call that is half done.
pub enum Half {
    /// No call is under way.
    Idle,
    /// The gate at the beginning, and the words read so far.
    Reading(u64, LinkedList<u64>),
    /// The gate under the claim, the words read before it, and the words written so far.
    Writing(u64, LinkedList<u64>, LinkedList<u64>),
}

/// What a seat knows of its table, and the call that it has half done.
pub struct View {
    /// The caller's number.
    pub number: u64,
    /// The seat wasn't spent.
    pub seated: bool,
    /// A beginning of the table's history.
    pub seen: LinkedList<Call>,
    /// The seat's own calls, at all slots.
    pub mine: LinkedList<Call>,
    /// One for each slot.
    pub notes: LinkedList<Note>,
    /// Where a call is half done.
    pub slot: u64,
    pub half: Half,
    /// How many atomic steps the seat has made.
    pub steps: u64,
    /// How many seats there are, for the one that deals them; else 0.
    pub deals: u64,
}
