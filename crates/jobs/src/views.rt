//! What a job board is made for, and what its seats know.
use std::snapshot::Snapshot;

/// What is fixed when a job board is made.
#[derive(Drop)]
pub struct Terms<W> {
    /// The jobs that win.
    pub wins: Snapshot<W>,
    /// How many jobs there are.
    pub jobs: u64,
}

/// What a seat knows of its job board. No value of it is made.
pub struct JobView<W> {
    /// The jobs that win.
    pub wins: W,
    /// How many jobs there are.
    pub jobs: u64,
    /// The number of jobs, or a job that wins. The word isn't above it.
    pub known: u64,
    /// How many atomic steps the seat has made.
    pub steps: u64,
}
