//! What is searched, and over which table.
use entry::MateLore;
use problems::Problem;
use searcher::Gate;
use slots::Slots;

/// A problem, the slots over which it is searched, and what is called as the jobs of the search are begun.
#[derive(Drop)]
pub struct Task<'a, T: Gate> {
    pub problem: &'a Problem,
    pub slots: &'a Slots<MateLore>,
    pub gate: &'a T,
}
