//! What a caller knows of one slot, for the proofs alone.
use slots::Call;
use std::collections::LinkedList;

/// A beginning of the slot's history, and the caller's own calls in it. The caller is seated until its seat is spent. No value of it is made.
pub struct View {
    pub seated: bool,
    pub seen: LinkedList<Call>,
    pub mine: LinkedList<Call>,
}
