//! What the seats know of the word.

/// What a seat knows of the requests. No value of it is made.
pub struct RequestView {
    /// How many were made, as far as it knows.
    pub requests: u64,
    /// It is the seat that makes them.
    pub asks: bool,
}
